ghost use Rattle.std.specs.Prelude.{◌≡◌};
ghost use Rattle.tpl_parse.specs.Actions.{ActionAdvanceAnswers, ReadOnAnswers};
ghost use Rattle.tpl_parse.specs.Actions as spec;

use crate::action::{ActionState, Before, becomes};
use crate::refused::RefusalCause;
use crate::variable::copy_name;
use page_io::{Memory, Stop};
use std::alloc::Global;
use tpl_build::{Builder, Control, Purpose};
use tpl_pipe::{PipeState, pipe_start, read};
use tpl_symbol::{Symbol, SymbolKind};

/// After `{{`, or after a control's word.
#[inline(always)]
pub fn following(
    alloc: Global,
    builder: &Builder,
    before: Before,
    action: &mut ActionState,
    symbol: &Symbol,
) -> Result<(), Stop<RefusalCause>>
    ensures { let wanted = spec.following builder.now before symbol.now in
        ActionAdvanceAnswers result action.new wanted }
{
    match &symbol.kind {
        SymbolKind::Variable(name) => match copy_name(alloc, name) {
            Ok(name) => becomes(action, ActionState::Named(before, name, symbol.line)),
            Err(Memory) => Err(Stop::Memory),
        },
        _ => {
            let state = pipe_start(alloc, room_in(before, builder.room));
            in_pipe(alloc, builder, plain(before), state, action, symbol)
        }
    }
}

/// The next state of a pipe.
#[inline(always)]
pub fn read_on(
    alloc: Global,
    builder: &Builder,
    state: &mut PipeState,
    symbol: &Symbol,
) -> Result<(), Stop<RefusalCause>>
    ensures { let wanted = spec.read_in builder.now state.old symbol.now in
        ReadOnAnswers result state.new symbol.now.line wanted }
{
    match read(alloc, &builder.variables, state, symbol) {
        Ok(()) => Ok(()),
        Err(Stop::Cause(refused)) => Err(Stop::Cause((refused, symbol.line))),
        Err(Stop::Memory) => Err(Stop::Memory),
    }
}

/// A pipe, from a state of it on.
#[inline(always)]
pub fn in_pipe(
    alloc: Global,
    builder: &Builder,
    purpose: Purpose,
    state: PipeState,
    action: &mut ActionState,
    symbol: &Symbol,
) -> Result<(), Stop<RefusalCause>>
    ensures { let wanted = spec.in_pipe builder.now purpose state symbol.now in
        ActionAdvanceAnswers result action.new wanted }
{
    let mut state = state;
    match read(alloc, &builder.variables, &mut state, symbol) {
        Ok(()) => {
            *action = ActionState::Pipe(purpose, state);
            Ok(())
        }
        Err(Stop::Cause(refused)) => Err(Stop::Cause((refused, symbol.line))),
        Err(Stop::Memory) => Err(Stop::Memory),
    }
}

/// What a pipe is for.
#[inline(always)]
pub fn plain(before: Before) -> Purpose
    ensures { result ≡ spec.plain before }
{
    match before {
        Before::Action => Purpose::Write,
        Before::If => Purpose::Control(Control::If(None), false),
        Before::ElseIf => Purpose::Control(Control::If(None), true),
        Before::With => Purpose::Control(Control::With(None), false),
        Before::Range => Purpose::Control(Control::Range(None, None), false),
    }
}

/// How many parentheses may be opened in a pipe. A control counts as open in its own.
#[inline(always)]
pub fn room_in(before: Before, room: u32) -> u32
    ensures { result ≡ spec.room_in before room }
{
    match before {
        Before::Action => room,
        _ => room.saturating_sub(1),
    }
}
