/// What a piece of style ended in that the next one may go on with: a set, which may be empty.
#[derive(Clone, Copy, Debug, Drop, PartialEq, Eq)]
pub struct CssTails {
    /// A word, as `color`.
    pub word: bool,
    /// `/`, which may go on as `/*`.
    pub slash: bool,
    /// `<`, which may go on as `</style`.
    pub lt: bool,
}
