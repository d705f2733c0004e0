ghost use Rattle.std.specs.Prelude.{◌≡◌, IfOk};
ghost use Rattle.tpl_parse.specs.Actions.{ActionAdvanceAnswers};
ghost use Rattle.tpl_parse.specs.Actions as spec;

use crate::action::{ActionState, Before, becomes};
use crate::pipe::{in_pipe, plain, room_in};
use crate::refused::{RefusalCause, unexpected};
use page_io::{List, Memory, Stack, Stop, Text};
use std::alloc::Global;
use tpl_build::{Builder, Control, Purpose};
use tpl_pipe::{Current, Level, ParseRefused, PipeState, pipe_start};
use tpl_symbol::{Symbol, SymbolKind};
use tpl_tree::{Base, Operand};

/// After a variable that may be declared.
pub fn named(
    alloc: Global,
    builder: &Builder,
    before: Before,
    name: Text,
    line: u32,
    action: &mut ActionState,
    symbol: &Symbol,
) -> Result<(), Stop<RefusalCause>>
    ensures { let wanted = spec.following_named before builder.now name line symbol.now in
        ActionAdvanceAnswers result action.new wanted }
{
    match (&symbol.kind, before) {
        (SymbolKind::Declare, _) => {
            let state = pipe_start(alloc, room_in(before, builder.room));
            becomes(action, ActionState::Pipe(declaring(before, name), state))
        }
        (SymbolKind::Assign, Before::Action) => assigned(alloc, builder, name, line, action),
        (SymbolKind::Comma, Before::Range) => becomes(action, ActionState::Second(name)),
        _ => by_variable(alloc, builder, before, name, line, action, symbol),
    }
}

// What a pipe is for that declares a variable.
fn declaring(before: Before, name: Text) -> Purpose
    ensures { result ≡ spec.declaring before name }
{
    match before {
        Before::Action => Purpose::Declare(name),
        Before::If => Purpose::Control(Control::If(Some(name)), false),
        Before::ElseIf => Purpose::Control(Control::If(Some(name)), true),
        Before::With => Purpose::Control(Control::With(Some(name)), false),
        Before::Range => Purpose::Control(Control::Range(None, Some(name)), false),
    }
}

fn assigned(
    alloc: Global,
    builder: &Builder,
    name: Text,
    line: u32,
    action: &mut ActionState,
) -> Result<(), Stop<RefusalCause>>
    ensures { let wanted = spec.variable_assigned builder.now name line in
        ActionAdvanceAnswers result action.new wanted }
{
    if builder.variables.has(&name) {
        becomes(
            action,
            ActionState::Pipe(Purpose::Assign(name), pipe_start(alloc, builder.room)),
        )
    } else {
        Err(Stop::Cause((ParseRefused::UndefinedVariable, line)))
    }
}

// A pipe that begins with a variable.
fn by_variable(
    alloc: Global,
    builder: &Builder,
    before: Before,
    name: Text,
    line: u32,
    action: &mut ActionState,
    symbol: &Symbol,
) -> Result<(), Stop<RefusalCause>>
    ensures { let wanted = spec.by_variable builder.now before name line symbol.now in
        ActionAdvanceAnswers result action.new wanted }
{
    if builder.variables.has(&name) {
        let state = variable_state(alloc, room_in(before, builder.room), name);
        in_pipe(alloc, builder, plain(before), state, action, symbol)
    } else {
        Err(Stop::Cause((ParseRefused::UndefinedVariable, line)))
    }
}

/// The state after a variable that a pipe begins with.
pub fn variable_state(alloc: Global, room: u32, name: Text) -> PipeState
    ensures { result ≡ spec.variable_state room name }
{
    let operand = Operand {
        base: Base::Variable(name),
        fields: List::new(alloc),
    };
    PipeState {
        outer: Stack::new(alloc),
        level: Level {
            room,
            commands: Stack::new(alloc),
            current: Current::Alone(operand),
        },
    }
}

/// After `range $i,`.
pub fn second(
    alloc: Global,
    index: Text,
    action: &mut ActionState,
    symbol: &Symbol,
) -> Result<(), Stop<RefusalCause>>
    ensures { let wanted = spec.second symbol.now.kind index symbol.now.line in
        ActionAdvanceAnswers result action.new wanted }
{
    match &symbol.kind {
        SymbolKind::Variable(element) => match copy_name(alloc, element) {
            Ok(element) => becomes(
                action,
                ActionState::SecondNamed(index, element, symbol.line),
            ),
            Err(Memory) => Err(Stop::Memory),
        },
        _ => Err(unexpected(symbol.line)),
    }
}

/// After `range $i, $e`.
pub fn second_named(
    alloc: Global,
    builder: &Builder,
    index: Text,
    element: Text,
    line: u32,
    action: &mut ActionState,
    symbol: &Symbol,
) -> Result<(), Stop<RefusalCause>>
    ensures { let wanted = spec.following_second builder.now index element line symbol.now in
        ActionAdvanceAnswers result action.new wanted }
{
    match &symbol.kind {
        SymbolKind::Declare => {
            let state = pipe_start(alloc, builder.room.saturating_sub(1));
            let control = Control::Range(Some(index), Some(element));
            becomes(
                action,
                ActionState::Pipe(Purpose::Control(control, false), state),
            )
        }
        SymbolKind::Comma => Err(unexpected(symbol.line)),
        _ => Err(undeclared(builder, &element, line, symbol.line)),
    }
}

/// Why a second variable is refused that nothing declares.
pub fn undeclared(builder: &Builder, name: &Text, line: u32, now: u32) -> Stop<RefusalCause>
    ensures { result ≡ spec.refusal_stop (spec.undeclared builder.now.variables name.now line now) }
{
    if builder.variables.has(name) {
        unexpected(now)
    } else {
        Stop::Cause((ParseRefused::UndefinedVariable, line))
    }
}

/// A copy of a name.
pub fn copy_name(alloc: Global, text: &Text) -> Result<Text, Memory>
    ensures { IfOk result (λ copy. copy ≡ text.now) }
{
    Text::copy_of(alloc, text.as_str())
}
