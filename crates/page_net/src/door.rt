ghost use Rattle.std.specs.Prelude.{◌≡◌, ℕ, Option, OnErr};
ghost use Rattle.page_io.specs.Causes.{HasCause};
ghost use Rattle.page_net.specs.Doors.{DoorTold, Accepts, TakesLinkBack, HasLinkOut, IsDoorBounded};
ghost use Rattle.page_net.specs.Tellings.{BothTold};

use crate::link::Link;
use page_io::Failed;

/// What comes through a door.
#[derive(Debug, Drop)]
pub enum Came<L> {
    /// A link.
    Link(L),
    /// None is to come any more.
    Closed,
}

/// Where links come in, one after another, and go back when they were served.
pub trait Door {
    /// The links that come through it.
    type Link: Link;

    // The links to come, how many it gave, and those that it got back, where the door tells them.
    ghost told: { Self → Option (DoorTold Self.Link) };

    // How many calls failed.
    ghost faults: { Self → ℕ };

    /// Gives the first link to come, or `Closed` exactly where none is. It may wait for a client. The error comes only
    /// where the count of faults rose in this call, and then the door is as before.
    fn accept(&mut self) -> Result<Came<Self::Link>, Failed>
        ensures came { BothTold (told self.old) (told self.new)
            (λ old now. Accepts old now result) }
        ensures kept { OnErr result (told self.new ≡ told self.old) }
        ensures cause { HasCause (faults self.old) (faults self.new) result };

    /// Takes a link back, of those that the door gave. It takes no memory and does not fail.
    fn done(&mut self, link: Self::Link)
        requires { HasLinkOut (told self.old) }
        ensures back { BothTold (told self.old) (told self.new)
            (λ old now. TakesLinkBack old now link) }
        ensures faults { faults self.new ≡ faults self.old };

    // No door that tells got more links back than it gave.
    ghost bounded: { (d : Self) → IsDoorBounded (told d) };
}
