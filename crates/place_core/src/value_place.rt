use crate::body::Body;
use crate::quotes::Quotes;
use crate::tag_of::TagOf;

/// A place in an attribute's value, as after `<a href="`.
#[derive(Clone, Copy, Debug, Drop, PartialEq, Eq)]
pub struct ValuePlace {
    /// The tag.
    pub tag: TagOf,
    /// Whether the tag, which is a script's, may have had a `type` before this attribute.
    pub typed: bool,
    /// The quotes around the value.
    pub quotes: Quotes,
    /// What the value is read as.
    pub body: Body,
}
