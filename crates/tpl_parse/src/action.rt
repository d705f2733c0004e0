ghost use Rattle.std.specs.Prelude.{Ok};
ghost use Rattle.tpl_parse.specs.Actions.{ActionAdvanceAnswers};

use crate::refused::RefusalCause;
use page_io::{Stop, Text};
use tpl_build::{Opening, Purpose};
use tpl_pipe::PipeState;

/// What comes before a pipe, or before the declaration of a variable.
#[derive(Clone, Copy)]
pub enum Before {
    /// `{{`
    Action,
    /// `if`
    If,
    /// `else if`
    ElseIf,
    /// `with`
    With,
    /// `range`
    Range,
}

/// Where in an action reading is.
#[derive(Drop)]
pub enum ActionState {
    /// After `{{`.
    Start,
    /// After a control's word.
    AfterWord(Before),
    /// After a variable, on this line, that may be declared.
    Named(Before, Text, u32),
    /// After `range $i,`.
    Second(Text),
    /// After `range $i, $e`, with the line of `$e`.
    SecondNamed(Text, Text, u32),
    /// In a pipe.
    Pipe(Purpose, PipeState),
    /// After `else`.
    Else,
    /// After `end`.
    End,
    /// After `break`.
    Break,
    /// After `continue`.
    Continue,
    /// After `template`.
    Template,
    /// After `template "n"`.
    TemplateNamed(Text),
    /// After `define`, on this line.
    Define(u32),
    /// After `define "n"`.
    DefineNamed(Text, u32),
    /// After `block`, on this line.
    Block(u32),
}

/// Where in a file reading is.
#[derive(Clone, Copy)]
pub enum Position {
    /// Outside actions.
    Outside,
    /// In an action, whose state is kept apart.
    Inside(Opening),
}

/// The state after a symbol that is read.
pub fn becomes(action: &mut ActionState, next: ActionState) -> Result<(), Stop<RefusalCause>>
    ensures { ActionAdvanceAnswers result action.new (Ok next) }
{
    *action = next;
    Ok(())
}
