use tpl_paths::Way;

/// What a path chose at an `if`, a `with` or a range.
#[derive(Clone, Copy, Debug)]
pub struct Chosen {
    /// The template's number in the forest.
    pub template: u32,
    /// The node.
    pub node: u32,
    /// Which way the path went.
    pub way: Way,
}
