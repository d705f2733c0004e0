ghost use Rattle.tpl_parse.specs.Actions.{ActionAdvanceAnswers, ActionAnswers};
ghost use Rattle.tpl_parse.specs.Actions as spec;
ghost use Rattle.tpl_parse.specs.declared.action.ActionState.TheVariants as state;
ghost use Rattle.tpl_build.specs.declared.action.Purpose.TheVariants as purpose;

use crate::action::{ActionState, becomes};
use crate::pipe::in_pipe;
use crate::refused::{RefusalCause, unexpected};
use crate::variable::copy_name;
use page_io::{Memory, Stop, Text};
use std::alloc::Global;
use tpl_build::{Builder, Purpose};
use tpl_pipe::pipe_start;
use tpl_symbol::{Symbol, SymbolKind};

/// After `template`: its name.
pub fn call_name(
    alloc: Global,
    action: &mut ActionState,
    symbol: &Symbol,
) -> Result<(), Stop<RefusalCause>>
    ensures { let name = spec.name_in symbol.now.kind symbol.now.line in
        ActionAdvanceAnswers result action.new (spec.with_name name (λ n. state.TemplateNamed n)) }
{
    match name_of(alloc, symbol) {
        Ok(name) => becomes(action, ActionState::TemplateNamed(name)),
        Err(stop) => Err(stop),
    }
}

/// After `template "n"`: its argument.
pub fn call_argument(
    alloc: Global,
    builder: &Builder,
    name: Text,
    action: &mut ActionState,
    symbol: &Symbol,
) -> Result<(), Stop<RefusalCause>>
    ensures { let start = spec.action_start builder.now.room in
        let wanted = spec.in_pipe builder.now (purpose.Template name) start symbol.now in
        ActionAdvanceAnswers result action.new wanted }
{
    let state = pipe_start(alloc, builder.room);
    in_pipe(
        alloc,
        builder,
        Purpose::Template(name),
        state,
        action,
        symbol,
    )
}

/// After `define`, on this line: its name.
pub fn define_name(
    alloc: Global,
    line: u32,
    action: &mut ActionState,
    symbol: &Symbol,
) -> Result<(), Stop<RefusalCause>>
    ensures { let name = spec.name_in symbol.now.kind symbol.now.line in
        let wanted = spec.with_name name (λ n. state.DefineNamed n line) in
        ActionAdvanceAnswers result action.new wanted }
{
    match name_of(alloc, symbol) {
        Ok(name) => becomes(action, ActionState::DefineNamed(name, line)),
        Err(stop) => Err(stop),
    }
}

/// After `block`, on this line: its name.
pub fn block_name(
    alloc: Global,
    builder: &Builder,
    line: u32,
    action: &mut ActionState,
    symbol: &Symbol,
) -> Result<(), Stop<RefusalCause>>
    ensures { let name = spec.name_in symbol.now.kind symbol.now.line in
        let start = spec.action_start builder.now.room in
        let wanted = spec.with_name name (λ n. state.Pipe (purpose.Block n line) start) in
        ActionAdvanceAnswers result action.new wanted }
{
    match name_of(alloc, symbol) {
        Ok(name) => {
            let state = pipe_start(alloc, builder.room);
            becomes(action, ActionState::Pipe(Purpose::Block(name, line), state))
        }
        Err(stop) => Err(stop),
    }
}

// A name in quotes.
fn name_of(alloc: Global, symbol: &Symbol) -> Result<Text, Stop<RefusalCause>>
    ensures { ActionAnswers result (spec.name_in symbol.now.kind symbol.now.line) }
{
    match &symbol.kind {
        SymbolKind::Str(name) => match copy_name(alloc, name) {
            Ok(name) => Ok(name),
            Err(Memory) => Err(Stop::Memory),
        },
        _ => Err(unexpected(symbol.line)),
    }
}
