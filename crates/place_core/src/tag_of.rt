use crate::element::Element;

/// The tag in which an attribute stands.
#[derive(Clone, Copy, Debug, Drop, PartialEq, Eq)]
pub enum TagOf {
    /// An end tag, as `</p x=1>`: its attributes are read and have no effect.
    End,
    /// A start tag, as `<p x=1>` or `<title x=1>`.
    Start(Element),
}
