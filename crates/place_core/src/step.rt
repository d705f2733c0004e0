/// Where the characters of one language lead.
#[derive(Clone, Copy, Debug, Drop, PartialEq, Eq)]
pub enum Step<P> {
    /// They stay in the language: the place behind them.
    Inside(P),
    /// The end tag of the element begins in them: the place of its `<`, in bytes.
    Ends(u32),
}
