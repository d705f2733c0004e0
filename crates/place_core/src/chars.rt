ghost use Rattle.std.specs.Prelude.{◌≡◌, ℕ, List, [], ◌∷◌, MatchOption};

/// Characters to come, each with its place. A copy reads ahead: reading it leaves the original where it is.
pub trait Chars: Copy {
    /// The characters that are left, each with the place of its first byte.
    ghost left: { Self → List (ℕ × ℕ) };

    /// The next character as its code point, and the place of its first byte in the node, in bytes from the node's
    /// start. None at the end. Does not allocate.
    fn next(&mut self) -> Option<(u32, u32)>
        ensures next { MatchOption result (left self.old ≡ [])
            (λ character. left self.old ≡ character ∷ left self.new) }
        ensures end { MatchOption result (left self.new ≡ []) (λ character. Unit {0}) };
}
