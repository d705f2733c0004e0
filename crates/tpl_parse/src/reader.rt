ghost use Rattle.std.specs.Prelude.{◌≡◌, OnOk, All};
ghost use Rattle.tpl_parse.specs.Steps.{InActionAnswers, ParserStepAnswers, EndActionAnswers};
ghost use Rattle.tpl_parse.specs.Phases.{phase_of};
ghost use Rattle.tpl_parse.specs.declared.action.Position.TheVariants as position_of;
ghost use Rattle.tpl_symbol.specs.Symbols.{IsFineSymbol};
ghost use Rattle.tpl_parse.specs.Steps as steps;
ghost use Rattle.tpl_parse.specs.Actions as actions_spec;

use crate::action::{ActionState, Position};
use crate::action_end::action_kind_of;
use crate::refused::RefusalCause;
use crate::transition::advance;
use page_io::{List, Memory, Stop};
use std::alloc::Global;
use tpl_build::{Builder, Opening, Purpose, add, add_taken, add_text, begin_else};
use tpl_pipe::{ParseRefused, PipeState, finish};
use tpl_symbol::{Symbol, SymbolKind};

/// How many controls and parentheses may be open at once.
pub const ROOM: u32 = 100;

// Reads one symbol on.
#[inline(always)]
fn step(
    alloc: Global,
    builder: &mut Builder,
    position: &mut Position,
    action: &mut ActionState,
    symbol: Symbol,
) -> Result<(), Stop<RefusalCause>>
    requires { IsFineSymbol symbol }
    ensures { let old = steps.state builder.old (phase_of position.old action.old) in
        let wanted = steps.parser_step old symbol in
        ParserStepAnswers result builder.new (phase_of position.new action.new) wanted }
{
    match position {
        Position::Outside => outside(builder, position, action, symbol),
        Position::Inside(opening) => {
            let opening = *opening;
            inside(alloc, builder, position, action, opening, &symbol)
        }
    }
}

// Inside an action, a symbol ends it or is read on.
#[inline(always)]
fn inside(
    alloc: Global,
    builder: &mut Builder,
    position: &mut Position,
    action: &mut ActionState,
    opening: Opening,
    symbol: &Symbol,
) -> Result<(), Stop<RefusalCause>>
    requires { position.old ≡ position_of.Inside opening }
    ensures { let end = steps.close_end symbol.now.kind in
        let wanted = steps.inside end opening action.old symbol.now builder.old in
        ParserStepAnswers result builder.new (phase_of position.new action.new) wanted }
{
    match close_end(&symbol.kind) {
        Some(end) => match end_action(alloc, builder, opening, action, symbol.line, end) {
            Ok(()) => {
                *position = Position::Outside;
                Ok(())
            }
            Err(stop) => Err(stop),
        },
        None => in_action(alloc, builder, action, symbol),
    }
}

// Outside actions there are texts and the beginnings of actions.
#[inline(always)]
fn outside(
    builder: &mut Builder,
    position: &mut Position,
    action: &mut ActionState,
    symbol: Symbol,
) -> Result<(), Stop<RefusalCause>>
    requires kind { IsFineSymbol symbol }
    requires position { position.old ≡ position_of.Outside }
    ensures { ParserStepAnswers result builder.new (phase_of position.new action.new)
        (steps.outside_by symbol builder.old) }
{
    let line = symbol.line;
    match symbol.kind {
        SymbolKind::Text(text, seams) => match add_text(builder, text, line, seams) {
            Ok(()) => Ok(()),
            Err(Memory) => Err(Stop::Memory),
        },
        SymbolKind::Open { start, before } => {
            let opening = Opening {
                line,
                start,
                before,
            };
            *position = Position::Inside(opening);
            *action = ActionState::Start;
            Ok(())
        }
        _ => Err(Stop::Cause((ParseRefused::UnexpectedToken, line))),
    }
}

// Adds what an action says that ends on a line, before an offset.
#[inline(always)]
fn end_action(
    alloc: Global,
    builder: &mut Builder,
    opening: Opening,
    action: &mut ActionState,
    line: u32,
    end: u32,
) -> Result<(), Stop<RefusalCause>>
    ensures { let wanted = steps.after_state action.old opening line end builder.old in
        EndActionAnswers result builder.new wanted }
{
    match action {
        ActionState::Pipe(purpose, at) => {
            end_pipe(alloc, builder, opening, purpose, at, line, end)
        }
        _ => end_from(alloc, builder, opening, action, line, end),
    }
}

// The same in a pipe.
#[inline(always)]
fn end_pipe(
    alloc: Global,
    builder: &mut Builder,
    opening: Opening,
    purpose: &mut Purpose,
    at: &mut PipeState,
    line: u32,
    end: u32,
) -> Result<(), Stop<RefusalCause>>
    ensures { let wanted = steps.after_pipe purpose.old at.old opening line end builder.old in
        EndActionAnswers result builder.new wanted }
{
    match finish(alloc, at) {
        Ok(pipe) => match add_taken(alloc, builder, purpose, pipe, opening.line, end) {
            Ok(()) => Ok(()),
            Err(Memory) => Err(Stop::Memory),
        },
        Err(Stop::Cause(refused)) => Err(Stop::Cause((refused, line))),
        Err(Stop::Memory) => Err(Stop::Memory),
    }
}

// The same from anywhere. It is a function of its own since most actions need none of its room.
#[inline(never)]
fn end_from(
    alloc: Global,
    builder: &mut Builder,
    opening: Opening,
    action: &mut ActionState,
    line: u32,
    end: u32,
) -> Result<(), Stop<RefusalCause>>
    ensures { let wanted = steps.after_state action.old opening line end builder.old in
        EndActionAnswers result builder.new wanted }
{
    match action_kind_of(alloc, builder, action, line) {
        Ok(action_kind) => match add(alloc, builder, action_kind, opening, end) {
            Ok(()) => Ok(()),
            Err(Memory) => Err(Stop::Memory),
        },
        Err(stop) => Err(stop),
    }
}

// Reads a symbol on that does not end its action.
#[inline(always)]
fn in_action(
    alloc: Global,
    builder: &mut Builder,
    action: &mut ActionState,
    symbol: &Symbol,
) -> Result<(), Stop<RefusalCause>>
    ensures { let wanted = actions_spec.action_advance action.old builder.old symbol.now in
        InActionAnswers result builder.new action.new wanted builder.old }
{
    match advance(alloc, builder, action, symbol) {
        Ok(()) => match enter(alloc, builder, action) {
            Ok(()) => Ok(()),
            Err(Memory) => Err(Stop::Memory),
        },
        Err(stop) => Err(stop),
    }
}

// With the word `else` the `else` part begins.
#[inline(always)]
fn enter(alloc: Global, builder: &mut Builder, action: &ActionState) -> Result<(), Memory>
    ensures { OnOk result (builder.new ≡ steps.form_entered action.now builder.old) }
{
    match action {
        ActionState::Else => begin_else(alloc, builder),
        _ => Ok(()),
    }
}

// Where an action ends, if it ends with this symbol.
#[inline(always)]
fn close_end(kind: &SymbolKind) -> Option<u32>
    ensures { result ≡ steps.close_end kind.now }
{
    match kind {
        SymbolKind::Close { end } => Some(*end),
        _ => None,
    }
}

// Gives back the room of symbols that were read, once it is more than that of 1,024 and of an eighth of those left: all copying together
// takes time in proportion to the symbols.
fn release(left: &mut Vec<Symbol>)
    ensures { left.new.items ≡ left.old.items }
{
    let spare = left.capacity() - left.len();
    if spare > 1024 && spare > left.len() / 8 {
        left.shrink_to_fit();
    }
}

/// Reads the symbols of a file on. Their texts go into the nodes, and are not copied.
pub fn run_symbols(
    alloc: Global,
    builder: &mut Builder,
    position: &mut Position,
    action: &mut ActionState,
    symbols: List<Symbol>,
) -> Result<(), Stop<RefusalCause>>
    requires { All IsFineSymbol symbols }
    ensures { let old = steps.state builder.old (phase_of position.old action.old) in
        let wanted = steps.parser_run old symbols in
        ParserStepAnswers result builder.new (phase_of position.new action.new) wanted }
{
    let mut left = symbols.into_vec();
    left.reverse();
    while let Some(symbol) = left.pop() {
        release(&mut left);
        match step(alloc, builder, position, action, symbol) {
            Ok(()) => {}
            Err(Stop::Cause(why)) => return Err(Stop::Cause(why)),
            Err(Stop::Memory) => return Err(Stop::Memory),
        }
    }
    Ok(())
}
