ghost use Rattle.std.specs.Prelude.{◌≡◌, ◌<◌, ◌∷◌, IfOk, OnOk};
ghost use Rattle.tpl_pipe.specs.Levels.{commands_onto};
ghost use Rattle.tpl_pipe.specs.Levels.{ended_pipe, fresh};
ghost use Rattle.page_io.specs.Stops.{StopAnswers};
ghost use Rattle.tpl_tree.specs.Pipes.{no_commands};
ghost use Rattle.tpl_tree.specs.View.{pipe_view};
ghost use Rattle.tpl_pipe.specs.Levels as spec;

use crate::pipe_state::{Current, Level};
use crate::refused::ParseRefused;
use page_io::{Memory, Stack, Stop, Text};
use std::alloc::Global;
use std::mem;
use tpl_tree::{Base, Command, Commands, Operand, Operands, Pipe};

// A pipe of which nothing is read, in which so many parentheses may be opened.
#[inline(always)]
pub fn fresh_level(alloc: Global, room: u32) -> Level
    ensures { result ≡ fresh room }
{
    Level {
        room,
        commands: Stack::new(alloc),
        current: Current::Nothing,
    }
}

// Whether an operand may come: first of all, or after a function.
#[inline(always)]
pub fn takes_operand(level: &Level) -> bool
    ensures { result ≡ spec.takes_operand level.now }
{
    match &level.current {
        Current::Nothing => level.commands.is_empty(),
        Current::Alone(_) => false,
        Current::Calls(_, _) => true,
    }
}

// Adds an operand.
#[inline(always)]
pub fn add_operand(level: &mut Level, operand: Operand) -> Result<(), Memory>
    ensures { OnOk result (level.new ≡ spec.with_operand operand level.old) }
{
    take_into(operand, &mut level.current)
}

#[inline(always)]
fn take_into(operand: Operand, current: &mut Current) -> Result<(), Memory>
    ensures { OnOk result (current.new ≡ spec.take_into operand current.old) }
{
    match current {
        Current::Calls(_, operands) => operands.push(operand),
        _ => {
            *current = Current::Alone(operand);
            Ok(())
        }
    }
}

// Whether a field that touches it belongs to the operand.
fn takes_field(operand: &Operand) -> bool
    ensures { result ≡ spec.takes_field operand.now }
{
    match &operand.base {
        Base::Variable(_) => true,
        Base::Paren(_) => true,
        Base::Dot => !operand.fields.as_slice().is_empty(),
        _ => false,
    }
}

// Whether a field that touches what was read belongs to its last operand.
pub fn last_takes(current: &Current) -> bool
    ensures { result ≡ spec.last_takes current.now }
{
    match current {
        Current::Nothing => false,
        Current::Alone(operand) => takes_field(operand),
        Current::Calls(_, operands) => match operands.top() {
            Some(operand) => takes_field(operand),
            None => false,
        },
    }
}

// Adds a field, where the last operand takes one.
pub fn add_field(level: &mut Level, name: Text) -> Result<(), Memory>
    ensures { OnOk result (level.new ≡ spec.with_field name level.old) }
{
    field_into(name, &mut level.current)
}

fn field_into(name: Text, current: &mut Current) -> Result<(), Memory>
    ensures { OnOk result (current.new ≡ spec.field_into name current.old) }
{
    match current {
        Current::Nothing => Ok(()),
        Current::Alone(operand) => operand.fields.push(name),
        Current::Calls(_, operands) => match operands.pop() {
            Some(mut last) => {
                last.fields.push(name)?;
                operands.push(last)
            }
            None => Ok(()),
        },
    }
}

// The command that was read, as one that ends here.
#[tactic(auto, using(crate::proofs::Onto::operands_in_order))]
#[inline(always)]
pub fn ended(current: Current) -> Option<Command>
    ensures { result ≡ spec.level_ended current }
{
    match current {
        Current::Nothing => None,
        Current::Alone(operand) => Some(Command::Single(operand)),
        Current::Calls(func, operands) => {
            Some(Command::Call(func, Operands::from(operands.into_vec())))
        }
    }
}

// These commands and then one more. The first takes room for itself alone.
#[inline(always)]
#[tactic(auto, using(crate::proofs::Onto::commands_with_last))]
fn with_last(commands: Stack<Command>, last: Command) -> Result<Commands, Memory>
    ensures { IfOk result (λ all. all ≡ commands_onto (last ∷ commands) no_commands) }
{
    let mut items = commands.into_vec();
    if items.is_empty() {
        items.reserve_exact(1)?;
    }
    items.push(last)?;
    Ok(Commands::from(items))
}

// The pipe that was read, as one that ends here, taken out of the level.
#[inline(always)]
pub fn take_pipe(alloc: Global, level: &mut Level) -> Result<Pipe, Stop<ParseRefused>>
    ensures { StopAnswers pipe_view result (ended_pipe level.old) }
{
    let current = mem::replace(&mut level.current, Current::Nothing);
    let commands = mem::replace(&mut level.commands, Stack::new(alloc));
    match ended(current) {
        Some(command) => match with_last(commands, command) {
            Ok(commands) => Ok(Pipe { commands }),
            Err(Memory) => Err(Stop::Memory),
        },
        None if commands.is_empty() => Err(Stop::Cause(ParseRefused::EmptyPipeline)),
        None => Err(Stop::Cause(ParseRefused::UnexpectedToken)),
    }
}
