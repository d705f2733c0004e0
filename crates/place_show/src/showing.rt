use page_io::{List, Text};
use place_core::{Code, Place};
use tpl_paths::Way;

/// A choice of a path, as it is told.
#[derive(Debug, Drop)]
pub struct Choice {
    /// The template's name.
    pub template: Text,
    /// The line of the `if`, `with` or `range`.
    pub line: u32,
    /// Which way the path goes there.
    pub way: Way,
}

/// A path, and the place at which it shows the error.
#[derive(Debug, Drop)]
pub struct Seen {
    /// What it chooses, in order, from the start of its root.
    pub path: List<Choice>,
    /// Its place before the byte, the hole or the call; or where it comes together with the other path, or ends the root.
    pub at: Place,
}

/// An error, and the one or two paths of a root on which it stands.
#[derive(Debug, Drop)]
pub struct Showing {
    /// Which error it is.
    pub code: Code,
    /// The name of the template in which the paths stand.
    pub template: Text,
    /// The line of the byte, the node, or the control at which they come together; of `EndContext` the line on which the root ends.
    pub line: u32,
    /// The name of the root.
    pub root: Text,
    /// The nodes of the calls that are open, the outermost first.
    pub calls: List<u32>,
    /// The node; of `EndContext` the last one at top level of the root, and 0 where that has none.
    pub node: u32,
    /// The byte of the node's text; 0 where the error is not of a byte.
    pub byte: u32,
    /// The paths: one, or two that meet, of which the one comes first whose text does (`path_text`).
    pub paths: List<Seen>,
}
