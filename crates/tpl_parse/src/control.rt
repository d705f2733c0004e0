ghost use Rattle.std.specs.Prelude.{◌≡◌};
ghost use Rattle.tpl_parse.specs.Actions.{ActionAdvanceAnswers};
ghost use Rattle.tpl_parse.specs.Actions as spec;

use crate::action::{ActionState, Before, becomes};
use crate::refused::{RefusalCause, unexpected};
use page_io::Stop;
use tpl_build::{Builder, Control, OpenForm};
use tpl_pipe::ParseRefused;
use tpl_symbol::{Symbol, SymbolKind, Word};

/// Reads `if`, `with`, `range`, or `else if`.
pub fn control_word(
    builder: &Builder,
    before: Before,
    action: &mut ActionState,
    line: u32,
) -> Result<(), Stop<RefusalCause>>
    ensures { ActionAdvanceAnswers result action.new (spec.control_word builder.now before line) }
{
    if builder.room == 0 {
        Err(Stop::Cause((ParseRefused::TooNested, line)))
    } else {
        becomes(action, ActionState::AfterWord(before))
    }
}

/// Reads `else`.
pub fn else_word(
    builder: &Builder,
    action: &mut ActionState,
    line: u32,
) -> Result<(), Stop<RefusalCause>>
    ensures { ActionAdvanceAnswers result action.new (spec.else_word builder.now.frames line) }
{
    match builder.frames.top() {
        Some(OpenForm::Control(control)) => match &control.first {
            Some(_) => Err(Stop::Cause((ParseRefused::ElseTwice, line))),
            None => becomes(action, ActionState::Else),
        },
        _ => Err(Stop::Cause((ParseRefused::UnexpectedEnd, line))),
    }
}

/// Reads `break` or `continue`.
pub fn jump_word(
    builder: &Builder,
    next: ActionState,
    action: &mut ActionState,
    line: u32,
) -> Result<(), Stop<RefusalCause>>
    ensures { let wanted = spec.jump_word builder.now.in_range next line in
        ActionAdvanceAnswers result action.new wanted }
{
    if builder.in_range {
        becomes(action, next)
    } else {
        Err(Stop::Cause((ParseRefused::BreakOutside, line)))
    }
}

/// After `else`.
pub fn else_advance(
    builder: &Builder,
    action: &mut ActionState,
    symbol: &Symbol,
) -> Result<(), Stop<RefusalCause>>
    ensures { let wanted = spec.else_advance symbol.now.kind builder.now symbol.now.line in
        ActionAdvanceAnswers result action.new wanted }
{
    match &symbol.kind {
        SymbolKind::Word(Word::If) if ends_if(builder) => {
            control_word(builder, Before::ElseIf, action, symbol.line)
        }
        _ => Err(unexpected(symbol.line)),
    }
}

// Whether the innermost thing that is open is an `if`.
fn ends_if(builder: &Builder) -> bool
    ensures { result ≡ spec.ends_if builder.now.frames }
{
    match builder.frames.top() {
        Some(OpenForm::Control(open)) => matches!(&open.control, Control::If(_)),
        _ => false,
    }
}
