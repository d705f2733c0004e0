/// What is chosen at an `if`, a `with` or a range.
#[derive(Clone, Copy, Debug)]
pub enum Way {
    /// The first part of an `if` or a `with`.
    Then,
    /// The `else` part of an `if` or a `with`, also where none is written.
    Else,
    /// One more turn of a range.
    Turn,
    /// The end of a range, also where there is nothing to go over.
    Done,
}
