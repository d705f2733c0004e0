ghost use Rattle.tpl_parse.specs.Actions.{ActionAdvanceAnswers};
ghost use Rattle.tpl_parse.specs.Actions as spec;

use crate::action::{ActionState, Before, becomes};
use crate::control::{control_word, else_advance, else_word, jump_word};
use crate::definition::{block_name, call_argument, call_name, define_name};
use crate::pipe::{following, in_pipe, read_on};
use crate::refused::{RefusalCause, unexpected};
use crate::variable::{named, second, second_named};
use page_io::Stop;
use std::alloc::Global;
use std::mem;
use tpl_build::Builder;
use tpl_pipe::ParseRefused;
use tpl_symbol::{Symbol, SymbolKind, Word};

/// Reads a symbol on that does not end the action.
#[inline(always)]
pub fn advance(
    alloc: Global,
    builder: &Builder,
    action: &mut ActionState,
    symbol: &Symbol,
) -> Result<(), Stop<RefusalCause>>
    ensures { let wanted = spec.action_advance action.old builder.now symbol.now in
        ActionAdvanceAnswers result action.new wanted }
{
    match action {
        ActionState::Pipe(_, state) => read_on(alloc, builder, state, symbol),
        ActionState::Start => start(alloc, builder, action, symbol),
        _ => advance_from(alloc, builder, action, symbol),
    }
}

// The same from any state. It is a function of its own since most symbols need none of its room.
#[inline(never)]
fn advance_from(
    alloc: Global,
    builder: &Builder,
    action: &mut ActionState,
    symbol: &Symbol,
) -> Result<(), Stop<RefusalCause>>
    ensures { let wanted = spec.action_advance action.old builder.now symbol.now in
        ActionAdvanceAnswers result action.new wanted }
{
    match mem::replace(action, ActionState::Start) {
        ActionState::Start => start(alloc, builder, action, symbol),
        ActionState::AfterWord(before) => following(alloc, builder, before, action, symbol),
        ActionState::Named(before, name, line) => {
            named(alloc, builder, before, name, line, action, symbol)
        }
        ActionState::Second(index) => second(alloc, index, action, symbol),
        ActionState::SecondNamed(index, element, line) => {
            second_named(alloc, builder, index, element, line, action, symbol)
        }
        ActionState::Pipe(purpose, state) => in_pipe(
            alloc, builder, purpose, state, action, symbol,
        ),
        ActionState::Else => else_advance(builder, action, symbol),
        ActionState::Template => call_name(alloc, action, symbol),
        ActionState::TemplateNamed(name) => call_argument(alloc, builder, name, action, symbol),
        ActionState::Define(line) => define_name(alloc, line, action, symbol),
        ActionState::Block(line) => block_name(alloc, builder, line, action, symbol),
        _ => Err(unexpected(symbol.line)),
    }
}

#[inline(always)]
fn start(
    alloc: Global,
    builder: &Builder,
    action: &mut ActionState,
    symbol: &Symbol,
) -> Result<(), Stop<RefusalCause>>
    ensures { let wanted = spec.start_kind symbol.now.kind builder.now symbol.now in
        ActionAdvanceAnswers result action.new wanted }
{
    match &symbol.kind {
        SymbolKind::Word(word) => start_word(alloc, builder, *word, action, symbol),
        _ => following(alloc, builder, Before::Action, action, symbol),
    }
}

#[inline(never)]
fn start_word(
    alloc: Global,
    builder: &Builder,
    word: Word,
    action: &mut ActionState,
    symbol: &Symbol,
) -> Result<(), Stop<RefusalCause>>
    ensures { ActionAdvanceAnswers result action.new (spec.start_word word builder.now symbol.now) }
{
    let line = symbol.line;
    match word {
        Word::If => control_word(builder, Before::If, action, line),
        Word::With => control_word(builder, Before::With, action, line),
        Word::Range => control_word(builder, Before::Range, action, line),
        Word::Else => else_word(builder, action, line),
        Word::End if builder.frames.is_empty() => {
            Err(Stop::Cause((ParseRefused::UnexpectedEnd, line)))
        }
        Word::End => becomes(action, ActionState::End),
        Word::Break => jump_word(builder, ActionState::Break, action, line),
        Word::Continue => jump_word(builder, ActionState::Continue, action, line),
        Word::Template => becomes(action, ActionState::Template),
        Word::Define if builder.frames.is_empty() => becomes(action, ActionState::Define(line)),
        Word::Define => Err(Stop::Cause((ParseRefused::DefineNested, line))),
        Word::Block => becomes(action, ActionState::Block(line)),
        Word::True => following(alloc, builder, Before::Action, action, symbol),
        Word::False => following(alloc, builder, Before::Action, action, symbol),
        Word::Nil => following(alloc, builder, Before::Action, action, symbol),
    }
}
