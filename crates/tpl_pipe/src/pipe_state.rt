use page_io::Stack;
use tpl_tree::{Command, Func, Operand};

/// Where in a pipe reading is.
#[derive(Debug, Drop)]
pub struct PipeState {
    /// The pipes around it whose parentheses are open, the innermost last.
    pub outer: Stack<Level>,
    /// The innermost pipe.
    pub level: Level,
}

/// What is read of one pipe.
#[derive(Debug, Drop)]
pub struct Level {
    /// How many more parentheses may be opened in it.
    pub room: u32,
    /// Its commands so far.
    pub commands: Stack<Command>,
    /// The command that is being read.
    pub current: Current,
}

/// What is read of one command.
#[derive(Debug, Drop)]
pub enum Current {
    /// Nothing yet.
    Nothing,
    /// An operand, which may get fields.
    Alone(Operand),
    /// A function, and its operands so far, of which the last may get fields.
    Calls(Func, Stack<Operand>),
}
