// Where a text of a URL has been read to, on all paths together.
use place_core::Parts;

/// The percent triple in which a text stands, with the parts before it.
#[derive(Clone, Copy)]
pub enum OpenTriple {
    /// In none.
    None,
    /// Behind its percent sign.
    Percent(Parts),
    /// Behind its first digit.
    Digit(Parts),
}

/// The parts behind what has been read, and the percent triple that is open there.
#[derive(Clone, Copy)]
pub struct TextPoint {
    pub parts: Parts,
    pub triple: OpenTriple,
}
