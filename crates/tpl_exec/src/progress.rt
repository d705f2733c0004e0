use tpl_eval::Value;

/// What is given to the page. Nodes have the numbers that they have in their own tree.
#[derive(Drop)]
pub(crate) enum ExecEvent<'d> {
    /// The text of a node.
    Text(u32),
    /// A value, and the node whose pipe gives it.
    Hole(u32, Value<'d>),
    /// A call, by its node.
    Enter(u32),
    /// The end of a call.
    Leave,
}

/// An event, and the template and the line of its node, which for the end of a call is the call.
#[derive(Drop)]
pub(crate) struct Emission<'d> {
    pub(crate) event: ExecEvent<'d>,
    pub(crate) template: &'d str,
    pub(crate) line: u32,
}

/// What one advance does.
#[derive(Drop)]
pub(crate) enum Progress<'d> {
    /// It goes on.
    Continues,
    /// It gives an event, and goes on.
    Emits(Emission<'d>),
    /// All is done.
    Finishes,
}
