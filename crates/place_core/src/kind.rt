/// How the value of an attribute is read. (The kinds of attributes of Samuel, Saxena and Song, and of Go's
/// `html/template`.)
#[derive(Clone, Copy, Debug, Drop, PartialEq, Eq)]
pub enum Kind {
    /// As text, as in `title`.
    Plain,
    /// As a URL, as in `href`.
    Url,
    /// As a script, as in `onclick`.
    Script,
    /// As declarations of a style, as in `style`.
    Style,
    /// The `type` of a script element, which says how the content of the element is read.
    ScriptType,
    /// As text, but no value of data may stand in it, as in `srcdoc`.
    NoHole,
}
