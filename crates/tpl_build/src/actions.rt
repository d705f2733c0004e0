ghost use Rattle.std.specs.Prelude.{◌≡◌, OnOk};
ghost use Rattle.tpl_build.specs.Building as spec;

use crate::action::{ActionKind, Opening, Purpose};
use crate::builder::{Builder, add_node};
use crate::controls::{close_control, open_control};
use crate::definitions::{close_definition, open_definition};
use crate::frame::OpenForm;
use page_io::{Memory, Text};
use std::alloc::Global;
use std::mem;
use tpl_tree::{Boxed, NodeKind, Pipe};

/// Adds what an action says that begins at the opening and ends before an offset.
pub fn add(
    alloc: Global,
    builder: &mut Builder,
    action_kind: ActionKind,
    opening: Opening,
    end: u32,
) -> Result<(), Memory>
    ensures { OnOk result (builder.new ≡ spec.done action_kind opening end builder.old) }
{
    let line = opening.line;
    match action_kind {
        ActionKind::Piped(purpose, pipe) => add_pipe(alloc, builder, purpose, pipe, line, end),
        ActionKind::Break => add_node(builder, NodeKind::Break, line),
        ActionKind::Continue => add_node(builder, NodeKind::Continue, line),
        ActionKind::Call(name) => {
            let name = Boxed::new(alloc, name)?;
            add_node(builder, NodeKind::Template(name, None), line)
        }
        // It began with its word.
        ActionKind::Else => Ok(()),
        ActionKind::End => close(alloc, builder, opening),
        ActionKind::Define(name, line) => open_definition(alloc, builder, name, line, end),
    }
}

/// Adds what a pipe does, whose purpose is taken out of the state.
#[inline(always)]
pub fn add_taken(
    alloc: Global,
    builder: &mut Builder,
    purpose: &mut Purpose,
    pipe: Pipe,
    line: u32,
    end: u32,
) -> Result<(), Memory>
    ensures { OnOk result (builder.new ≡ spec.piped_builder purpose.old pipe line end builder.old) }
{
    match purpose {
        Purpose::Write => add_node(builder, NodeKind::Action(pipe), line),
        _ => {
            let purpose = mem::replace(purpose, Purpose::Write);
            add_pipe(alloc, builder, purpose, pipe, line, end)
        }
    }
}

// Adds what a pipe does, in an action on a line that ends before an offset.
#[inline(never)]
fn add_pipe(
    alloc: Global,
    builder: &mut Builder,
    purpose: Purpose,
    pipe: Pipe,
    line: u32,
    end: u32,
) -> Result<(), Memory>
    ensures { OnOk result (builder.new ≡ spec.piped_builder purpose pipe line end builder.old) }
{
    match purpose {
        Purpose::Write => add_node(builder, NodeKind::Action(pipe), line),
        Purpose::Declare(name) => {
            let copy = Text::copy_of(alloc, name.as_str())?;
            let name = Boxed::new(alloc, name)?;
            add_node(builder, NodeKind::Declare(name, pipe), line)?;
            builder.variables.push(copy)
        }
        Purpose::Assign(name) => {
            let name = Boxed::new(alloc, name)?;
            add_node(builder, NodeKind::Assign(name, pipe), line)
        }
        Purpose::Control(control, chained) => {
            open_control(alloc, builder, control, pipe, line, chained)
        }
        Purpose::Template(name) => {
            let name = Boxed::new(alloc, name)?;
            add_node(builder, NodeKind::Template(name, Some(pipe)), line)
        }
        Purpose::Block(name, word) => {
            let copy = Text::copy_of(alloc, name.as_str())?;
            let name = Boxed::new(alloc, name)?;
            add_node(builder, NodeKind::Template(name, Some(pipe)), line)?;
            open_definition(alloc, builder, copy, word, end)
        }
    }
}

// Closes the innermost control or definition by the action that begins there, and with an `else if` the control around it.
#[inline(never)]
fn close(alloc: Global, builder: &mut Builder, opening: Opening) -> Result<(), Memory>
    ensures { OnOk result (builder.new ≡ spec.with_end opening builder.old) }
{
    loop {
        match builder.frames.pop() {
            Some(OpenForm::Control(innermost)) => {
                let chained = innermost.chained;
                close_control(alloc, builder, innermost)?;
                if !chained {
                    return Ok(());
                }
            }
            Some(OpenForm::Definition(innermost)) => {
                close_definition(alloc, builder, innermost, opening);
                return Ok(());
            }
            None => return Ok(()),
        }
    }
}
