ghost use Rattle.std.specs.Prelude.{◌≡◌, ◌++◌, IfOk, OnOk, false};
ghost use Rattle.tpl_build.specs.Building as spec;
ghost use Rattle.tpl_tree.specs.Trees.{is_text_node};

use crate::builder::Builder;
use crate::frame::{Around, Control, OpenControl, OpenForm};
use page_io::{Memory, Text};
use std::alloc::Global;
use std::mem;
use tpl_pipe::Variables;
use tpl_tree::{Boxed, NodeKind, Pipe, TreeBuilder};

/// Opens a control on a line.
pub fn open_control(
    alloc: Global,
    builder: &mut Builder,
    control: Control,
    pipe: Pipe,
    line: u32,
    chained: bool,
) -> Result<(), Memory>
    ensures { OnOk result (builder.new ≡ spec.form_opened control pipe line chained builder.old) }
{
    let around = Around {
        variables: builder.variables.len(),
        in_range: builder.in_range,
        room: builder.room,
    };
    add_first_names(alloc, &mut builder.variables, &control)?;
    builder.in_range = is_range(&control) || builder.in_range;
    builder.room = builder.room.saturating_sub(1);
    builder.blank = false;
    let before = mem::replace(&mut builder.body, TreeBuilder::new(alloc));
    builder.frames.push(OpenForm::Control(OpenControl {
        control,
        pipe,
        line,
        before,
        first: None,
        chained,
        around,
    }))?;
    Ok(())
}

fn is_range(control: &Control) -> bool
    ensures { result ≡ spec.is_range control.now }
{
    matches!(control, Control::Range(_, _))
}

// Adds the variables of a control that live in its first part.
fn add_first_names(
    alloc: Global,
    variables: &mut Variables,
    control: &Control,
) -> Result<(), Memory>
    ensures { OnOk result (variables.new ≡ variables.old ++ spec.first_names control.now) }
{
    match control {
        Control::If(name) => add_name(alloc, variables, name),
        Control::With(name) => add_name(alloc, variables, name),
        Control::Range(index, element) => {
            add_name(alloc, variables, index)?;
            add_name(alloc, variables, element)
        }
    }
}

// Adds the variables of a control that live in its `else` part.
fn add_else_names(alloc: Global, variables: &mut Variables, control: &Control) -> Result<(), Memory>
    ensures { OnOk result (variables.new ≡ variables.old ++ spec.else_names control.now) }
{
    match control {
        Control::If(name) => add_name(alloc, variables, name),
        Control::With(name) => add_name(alloc, variables, name),
        Control::Range(_, _) => Ok(()),
    }
}

fn add_name(alloc: Global, variables: &mut Variables, name: &Option<Text>) -> Result<(), Memory>
    ensures { OnOk result (variables.new ≡ variables.old ++ spec.names_of name.now) }
{
    match name {
        Some(name) => variables.push(Text::copy_of(alloc, name.as_str())?),
        None => Ok(()),
    }
}

/// Begins the `else` part of the innermost control.
#[inline(never)]
pub fn begin_else(alloc: Global, builder: &mut Builder) -> Result<(), Memory>
    ensures { OnOk result (builder.new ≡ spec.with_else builder.old) }
{
    match builder.frames.pop() {
        Some(OpenForm::Control(innermost)) => begin_other(alloc, builder, innermost),
        Some(frame) => {
            builder.frames.push(frame)?;
            Ok(())
        }
        None => Ok(()),
    }
}

// The same, where the control was taken off the others that are open.
fn begin_other(alloc: Global, builder: &mut Builder, innermost: OpenControl) -> Result<(), Memory>
    ensures { OnOk result (builder.new ≡ spec.other_begun innermost builder.old) }
{
    let mut innermost = innermost;
    let first = mem::replace(&mut builder.body, TreeBuilder::new(alloc));
    innermost.first = Some(first);
    builder.variables.truncate(innermost.around.variables);
    add_else_names(alloc, &mut builder.variables, &innermost.control)?;
    builder.in_range = innermost.around.in_range;
    builder.blank = false;
    builder.frames.push(OpenForm::Control(innermost))?;
    Ok(())
}

/// Closes a control that was taken off the others that are open.
pub fn close_control(
    alloc: Global,
    builder: &mut Builder,
    innermost: OpenControl,
) -> Result<(), Memory>
    ensures { let closed = spec.closed_control builder.old.frames innermost builder.old in
        OnOk result (builder.new ≡ closed) }
{
    let OpenControl {
        control,
        pipe,
        line,
        before,
        first,
        chained: _,
        around,
    } = innermost;
    let last = mem::replace(&mut builder.body, before);
    let (first, other) = match first {
        Some(first) => (first, last),
        None => (last, TreeBuilder::new(alloc)),
    };
    let kind = node_kind(alloc, control, pipe)?;
    builder.body.push(kind, line, first, other)?;
    builder.variables.truncate(around.variables);
    builder.in_range = around.in_range;
    builder.room = around.room;
    builder.blank = false;
    Ok(())
}

// The node of a control. Fails only if allocation fails.
fn node_kind(alloc: Global, control: Control, pipe: Pipe) -> Result<NodeKind, Memory>
    ensures kind { IfOk result (λ kind. kind ≡ spec.node_kind_of control pipe) }
    ensures text { IfOk result (λ kind. is_text_node kind ≡ false) }
{
    Ok(match control {
        Control::If(name) => NodeKind::If(Boxed::new(alloc, name)?, pipe),
        Control::With(name) => NodeKind::With(Boxed::new(alloc, name)?, pipe),
        Control::Range(index, element) => {
            let index = Boxed::new(alloc, index)?;
            NodeKind::Range(index, Boxed::new(alloc, element)?, pipe)
        }
    })
}
