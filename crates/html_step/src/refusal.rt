use place_core::Code;

/// What is refused of a text, and at which of its bytes; and before which one the place is shown.
#[derive(Clone, Copy)]
pub struct Refusal {
    pub code: Code,
    pub at: usize,
    pub shown: usize,
}
