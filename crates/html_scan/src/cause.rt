use place_core::Code;

/// Why a text is refused: at the byte at hand, or that many bytes before it; and how many bytes before the one at hand the lexeme
/// begins before which the place is shown.
#[derive(Clone, Copy)]
pub struct Cause {
    pub code: Code,
    pub back: usize,
    pub shown: usize,
}
