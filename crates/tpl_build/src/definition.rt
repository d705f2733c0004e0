use page_io::{List, Text};
use tpl_tree::Tree;

/// The definitions of one template file.
#[derive(Debug, Drop)]
pub struct File {
    /// Those of each `define` and `block`, in the order of these words, and last the file's own body, by the file's name.
    pub defs: List<Def>,
}

/// One definition of a template.
#[derive(Debug, Drop)]
pub struct Def {
    /// The name of the template.
    pub name: Text,
    /// Whether the body has only white space, comments and definitions.
    pub blank: bool,
    /// The tree of the body.
    pub tree: Tree,
}

/// A definition, and the line of its word `define` or `block`, which is 1 for the file's own body.
#[derive(Drop)]
pub struct FoundDefinition {
    pub def: Def,
    pub line: u32,
}
