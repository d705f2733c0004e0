ghost use Rattle.std.specs.Prelude.{◌≡◌};

/// What stands at a door, as a worker does.
pub trait AtDoor {
    /// The type of the door.
    type Door;

    // The door, as it stands.
    ghost door: { Self → Self.Door };

    /// Gives the door back, as it stands. It does not allocate, and waits for nobody.
    fn leave(self) -> Self::Door
        ensures { result ≡ door self };
}
