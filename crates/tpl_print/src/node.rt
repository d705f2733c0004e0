ghost use Rattle.std.specs.Prelude.{◌≡◌, ◌++◌, Some, OnOk};
ghost use Rattle.tpl_print.specs.Spelling.{named_text, index_text, argument_text, inner_text, node_head};
ghost use Rattle.tpl_print.specs.Spelling as spec;
ghost use Rattle.tpl_tree.specs.Trees as trees;

use crate::pipe::push_pipe;
use crate::text::{push_escaped, push_guarded};
use page_io::{Memory, Text};
use std::alloc::Global;
use tpl_tree::{NodeKind, Pipe};

/// Appends a text, or the action that a node begins with. After a text an action follows or not.
pub(crate) fn push_head(
    alloc: Global,
    out: &mut Text,
    kind: &NodeKind,
    followed: bool,
) -> Result<(), Memory>
    ensures { OnOk result (out.new ≡ out.old ++ node_head followed kind.now) }
{
    if is_text(kind) {
        return push_inner(alloc, out, kind, followed);
    }
    out.push_str("{{")?;
    push_inner(alloc, out, kind, followed)?;
    out.push_str(" }}")
}

fn push_inner(alloc: Global, out: &mut Text, kind: &NodeKind, followed: bool) -> Result<(), Memory>
    ensures { OnOk result (out.new ≡ out.old ++ inner_text followed kind.now) }
{
    match kind {
        NodeKind::Text(text) => push_guarded(out, text.as_str(), followed),
        NodeKind::Action(pipe) => push_pipe(alloc, out, pipe),
        NodeKind::Declare(name, pipe) => {
            push_declared(out, name.get())?;
            push_pipe(alloc, out, pipe)
        }
        NodeKind::Assign(name, pipe) => {
            out.push_str(" $")?;
            out.push_str(name.get().as_str())?;
            out.push_str(" =")?;
            push_pipe(alloc, out, pipe)
        }
        NodeKind::If(name, pipe) => {
            out.push_str(" if")?;
            push_named(out, name.get())?;
            push_pipe(alloc, out, pipe)
        }
        NodeKind::With(name, pipe) => {
            out.push_str(" with")?;
            push_named(out, name.get())?;
            push_pipe(alloc, out, pipe)
        }
        NodeKind::Range(index, element, pipe) => {
            out.push_str(" range")?;
            push_index(out, index.get())?;
            push_named(out, element.get())?;
            push_pipe(alloc, out, pipe)
        }
        NodeKind::Break => out.push_str(" break"),
        NodeKind::Continue => out.push_str(" continue"),
        NodeKind::Template(name, pipe) => {
            out.push_str(" template \"")?;
            push_escaped(alloc, out, name.get().as_str())?;
            out.push_str("\"")?;
            push_argument(alloc, out, pipe)
        }
    }
}

// Appends `$x :=`.
fn push_declared(out: &mut Text, name: &Text) -> Result<(), Memory>
    ensures { OnOk result (out.new ≡ out.old ++ named_text (Some name.now)) }
{
    out.push_str(" $")?;
    out.push_str(name.as_str())?;
    out.push_str(" :=")
}

fn push_named(out: &mut Text, name: &Option<Text>) -> Result<(), Memory>
    ensures { OnOk result (out.new ≡ out.old ++ named_text name.now) }
{
    match name {
        Some(name) => push_declared(out, name),
        None => Ok(()),
    }
}

// Appends `$i ,`.
fn push_index(out: &mut Text, name: &Option<Text>) -> Result<(), Memory>
    ensures { OnOk result (out.new ≡ out.old ++ index_text name.now) }
{
    match name {
        Some(name) => {
            out.push_str(" $")?;
            out.push_str(name.as_str())?;
            out.push_str(" ,")
        }
        None => Ok(()),
    }
}

// Appends the pipe of a `template`.
fn push_argument(alloc: Global, out: &mut Text, pipe: &Option<Pipe>) -> Result<(), Memory>
    ensures { OnOk result (out.new ≡ out.old ++ argument_text pipe.now) }
{
    match pipe {
        Some(pipe) => push_pipe(alloc, out, pipe),
        None => Ok(()),
    }
}

/// Whether a node is a text.
pub(crate) fn is_text(kind: &NodeKind) -> bool
    ensures { result ≡ trees.is_text_node kind.now }
{
    matches!(kind, NodeKind::Text(_))
}

/// Whether a node has parts.
pub(crate) fn is_control(kind: &NodeKind) -> bool
    ensures { result ≡ spec.is_control_head kind.now }
{
    matches!(
        kind,
        NodeKind::If(_, _) | NodeKind::With(_, _) | NodeKind::Range(_, _, _)
    )
}
