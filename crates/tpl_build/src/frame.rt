use page_io::Text;
use tpl_pipe::Variables;
use tpl_tree::{Pipe, TreeBuilder};

/// A control, without its pipe: its word, and its variables.
#[derive(Drop)]
pub enum Control {
    /// `if`
    If(Option<Text>),
    /// `with`
    With(Option<Text>),
    /// `range`, with the variables of the index and of the element.
    Range(Option<Text>, Option<Text>),
}

/// What surrounds a control.
#[derive(Clone, Copy)]
pub struct Around {
    /// How many variables are declared before it in the same body.
    pub variables: usize,
    /// Whether it is in the first part of a `range` of the same body.
    pub in_range: bool,
    /// How many more controls and parentheses may be opened there.
    pub room: u32,
}

/// A control that is open.
#[derive(Drop)]
pub struct OpenControl {
    pub control: Control,
    pub pipe: Pipe,
    /// The line of its `{{`.
    pub line: u32,
    /// The nodes before it in the same part.
    pub before: TreeBuilder,
    /// Its first part, while its `else` part is read.
    pub first: Option<TreeBuilder>,
    /// Whether it is an `else if`, which ends with the control around it.
    pub chained: bool,
    pub around: Around,
}

/// A `define` or `block` that is open.
#[derive(Drop)]
pub struct OpenDefinition {
    /// The number of its definition.
    pub slot: usize,
    /// The offset where its body begins.
    pub begins: u32,
    /// The nodes before it in the same part.
    pub before: TreeBuilder,
    /// The variables that are declared there.
    pub variables: Variables,
    /// Whether it is in the first part of a `range` of the same body.
    pub in_range: bool,
    /// Whether the body around it is blank so far.
    pub blank: bool,
}

/// What is open.
#[derive(Drop)]
pub enum OpenForm {
    Control(OpenControl),
    Definition(OpenDefinition),
}
