/// The element that a start tag begins, as far as it matters to how its attributes and its content are read.
#[derive(Clone, Copy, Debug, Drop, PartialEq, Eq)]
pub enum Element {
    /// Any other element; its content is text with tags.
    Other,
    /// `title`, whose content is text without tags.
    Title,
    /// `textarea`, whose content is text without tags.
    Textarea,
    /// `style`, whose content is a style sheet.
    Style,
    /// `script`, whose content is a script.
    Script,
    /// `script` with a `type` that is no script's; its content is bytes.
    DataBlock,
}
