use crate::code::Code;

/// Why a text is refused, and where.
#[derive(Clone, Copy, Debug, Drop, PartialEq, Eq)]
pub struct StepErr<P> {
    /// Why.
    pub code: Code,
    /// The place in the text, in bytes.
    pub at: u32,
    /// The place in the page before it.
    pub before: P,
}
