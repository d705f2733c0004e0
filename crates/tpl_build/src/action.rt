use crate::frame::Control;
use page_io::Text;
use tpl_tree::Pipe;

/// Where an action begins.
#[derive(Clone, Copy)]
pub struct Opening {
    /// The line of its `{{`.
    pub line: u32,
    /// The offset of its `{{`.
    pub start: u32,
    /// The line of the byte before it.
    pub before: u32,
}

/// What a pipe is for.
#[derive(Drop)]
pub enum Purpose {
    /// Its value is written.
    Write,
    /// A variable is declared.
    Declare(Text),
    /// A variable gets another value.
    Assign(Text),
    /// A control; whether it is an `else if`.
    Control(Control, bool),
    /// The argument of a `template`.
    Template(Text),
    /// The argument of a `block`, with the line of this word.
    Block(Text, u32),
}

/// What a whole action says.
#[derive(Drop)]
pub enum ActionKind {
    /// What a pipe is for, and the pipe.
    Piped(Purpose, Pipe),
    /// `{{break}}`
    Break,
    /// `{{continue}}`
    Continue,
    /// `{{template "n"}}`
    Call(Text),
    /// `{{else}}`
    Else,
    /// `{{end}}`
    End,
    /// `{{define "n"}}`, with the line of the word.
    Define(Text, u32),
}
