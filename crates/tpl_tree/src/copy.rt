ghost use Rattle.std.specs.Prelude.{◌≡◌, IfOk};

use crate::pipe::{Base, Command, Commands, Operand, Operands, Pipe};
use page_io::{List, Memory, Names, Text};
use std::alloc::Global;

/// An equal pipe. Fails only if allocation fails.
#[cycle(copy)]
pub fn copy_pipe(alloc: Global, pipe: &Pipe) -> Result<Pipe, Memory>
    ensures { IfOk result (λ copy. copy ≡ pipe.now) }
{
    let commands = copy_commands(alloc, &pipe.commands)?;
    Ok(Pipe { commands })
}

#[cycle(copy)]
fn copy_commands(alloc: Global, commands: &Commands) -> Result<Commands, Memory>
    ensures { IfOk result (λ copy. copy ≡ commands.now) }
{
    let mut copies = Vec::new(alloc);
    for command in commands.as_slice() {
        copies.push(copy_command(alloc, command)?)?;
    }
    Ok(Commands::from(copies))
}

#[cycle(copy)]
fn copy_command(alloc: Global, command: &Command) -> Result<Command, Memory>
    ensures { IfOk result (λ copy. copy ≡ command.now) }
{
    match command {
        Command::Single(operand) => Ok(Command::Single(copy_operand(alloc, operand)?)),
        Command::Call(func, operands) => Ok(Command::Call(*func, copy_operands(alloc, operands)?)),
    }
}

#[cycle(copy)]
fn copy_operands(alloc: Global, operands: &Operands) -> Result<Operands, Memory>
    ensures { IfOk result (λ copy. copy ≡ operands.now) }
{
    let mut copies = Vec::new(alloc);
    for operand in operands.as_slice() {
        copies.push(copy_operand(alloc, operand)?)?;
    }
    Ok(Operands::from(copies))
}

#[cycle(copy)]
fn copy_operand(alloc: Global, operand: &Operand) -> Result<Operand, Memory>
    ensures { IfOk result (λ copy. copy ≡ operand.now) }
{
    let base = copy_base(alloc, &operand.base)?;
    let fields = copy_names(alloc, &operand.fields)?;
    Ok(Operand { base, fields })
}

#[cycle(copy)]
fn copy_base(alloc: Global, base: &Base) -> Result<Base, Memory>
    ensures { IfOk result (λ copy. copy ≡ base.now) }
{
    match base {
        Base::Str(value) => Ok(Base::Str(Text::copy_of(alloc, value.as_str())?)),
        Base::Number(number) => Ok(Base::Number(*number)),
        Base::Bool(truth) => Ok(Base::Bool(*truth)),
        Base::Nil => Ok(Base::Nil),
        Base::Dot => Ok(Base::Dot),
        Base::Variable(name) => Ok(Base::Variable(Text::copy_of(alloc, name.as_str())?)),
        Base::Paren(pipe) => Ok(Base::Paren(copy_pipe(alloc, pipe)?)),
    }
}

// Equal names.
fn copy_names(alloc: Global, names: &Names) -> Result<Names, Memory>
    ensures { IfOk result (λ copy. copy ≡ names.now) }
{
    let mut copies = List::new(alloc);
    for name in names.as_slice() {
        copies.push(Text::copy_of(alloc, name.as_str())?)?;
    }
    Ok(copies)
}
