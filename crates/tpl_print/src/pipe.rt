ghost use Rattle.std.specs.Prelude.{◌≡◌, ◌++◌, OnOk};
ghost use Rattle.tpl_print.specs.Pipes.{pipe_text, command_text, operands_text, printed_operand, base_text};
ghost use Rattle.tpl_tree.specs.Pipes.{dot};
ghost use Rattle.tpl_tree.specs.View.{command_view, operand_view, base_view};

use crate::text::{push_escaped, push_fields, push_number};
use page_io::{Memory, Text};
use std::alloc::Global;
use tpl_tree::{Base, Command, Commands, Operand, Operands, Pipe};

/// Appends a pipe, with a space before each of its tokens.
#[cycle(push)]
pub(crate) fn push_pipe(alloc: Global, out: &mut Text, pipe: &Pipe) -> Result<(), Memory>
    ensures { OnOk result (out.new ≡ out.old ++ pipe_text pipe.now.commands) }
{
    push_commands(alloc, out, &pipe.commands)
}

#[cycle(push)]
fn push_commands(alloc: Global, out: &mut Text, commands: &Commands) -> Result<(), Memory>
    ensures { OnOk result (out.new ≡ out.old ++ pipe_text commands.now) }
{
    let mut first = true;
    for command in commands.as_slice() {
        if !first {
            out.push_str(" |")?;
        }
        first = false;
        push_command(alloc, out, command)?;
    }
    Ok(())
}

#[cycle(push)]
fn push_command(alloc: Global, out: &mut Text, command: &Command) -> Result<(), Memory>
    ensures { OnOk result (out.new ≡ out.old ++ command_text (command_view command.now)) }
{
    match command {
        Command::Single(operand) => push_operand(alloc, out, operand),
        Command::Call(func, operands) => {
            out.push_str(" ")?;
            out.push_str(func.name())?;
            push_operands(alloc, out, operands)
        }
    }
}

#[cycle(push)]
fn push_operands(alloc: Global, out: &mut Text, operands: &Operands) -> Result<(), Memory>
    ensures { OnOk result (out.new ≡ out.old ++ operands_text operands.now) }
{
    for operand in operands.as_slice() {
        push_operand(alloc, out, operand)?;
    }
    Ok(())
}

#[cycle(push)]
fn push_operand(alloc: Global, out: &mut Text, operand: &Operand) -> Result<(), Memory>
    ensures { OnOk result (out.new ≡ out.old ++ printed_operand (operand_view operand.now)) }
{
    out.push_str(" ")?;
    let fields = operand.fields.as_slice();
    push_base(alloc, out, &operand.base, fields.is_empty())?;
    push_fields(out, fields)
}

#[cycle(push)]
fn push_base(alloc: Global, out: &mut Text, base: &Base, alone: bool) -> Result<(), Memory>
    ensures { OnOk result (out.new ≡ out.old ++ base_text (base_view base.now) alone) }
{
    match base {
        Base::Str(value) => {
            out.push_str("\"")?;
            push_escaped(alloc, out, value.as_str())?;
            out.push_str("\"")
        }
        Base::Number(number) => push_number(alloc, out, *number),
        Base::Bool(true) => out.push_str("true"),
        Base::Bool(false) => out.push_str("false"),
        Base::Nil => out.push_str("nil"),
        Base::Dot => push_dot(out, alone),
        Base::Variable(name) => {
            out.push_str("$")?;
            out.push_str(name.as_str())
        }
        Base::Paren(pipe) => {
            out.push_str("(")?;
            push_pipe(alloc, out, pipe)?;
            out.push_str(" )")
        }
    }
}

// The dot, which a field after it has already.
fn push_dot(out: &mut Text, alone: bool) -> Result<(), Memory>
    ensures { OnOk result (out.new ≡ out.old ++ base_text dot alone) }
{
    if alone {
        return out.push_str(".");
    }
    Ok(())
}
