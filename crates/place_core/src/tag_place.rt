use crate::kind::Kind;
use crate::spots::Spots;
use crate::tag_of::TagOf;

/// A place in a tag, outside the values of its attributes, as after `<a hr`.
#[derive(Clone, Copy, Debug, Drop, PartialEq, Eq)]
pub struct TagPlace {
    /// The tag.
    pub tag: TagOf,
    /// Whether the tag, which is a script's, may have had a `type`, as after `<script type=module `.
    pub typed: bool,
    /// Where in the tag.
    pub spots: Spots,
    /// The kind of the attribute whose name is being read or has just been read; none where there is no such name.
    pub kind: Option<Kind>,
}
