/// What is pending back in the element `script`: it may become the end tag, a `<!--` or, in a token of the script, `<script`.
#[derive(Clone, Copy)]
pub enum ScriptPending {
    Nothing,
    /// `<`.
    Less,
    /// `</` and so many letters.
    Name { letters: usize },
    /// `<!`.
    Bang,
    /// `<!-`.
    BangDash,
    /// `<` and so many letters.
    Opening { letters: usize },
}
