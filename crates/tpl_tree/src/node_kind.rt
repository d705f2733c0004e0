ghost use Rattle.std.specs.Prelude.{◌≡◌, IfOk};

use crate::boxed::Boxed;
use crate::pipe::Pipe;
use page_io::{Memory, Text};
use std::alloc::Global;

/// What a node of a tree is. Names of variables are without `$`, so that `$` itself has the empty name. Names are boxed,
/// also where there is none, since an `Option` of a box takes twice the room.
#[derive(Debug, Drop)]
pub enum NodeKind {
    /// Text between actions.
    Text(Text),
    /// `{{.a}}`: the value of a pipe is written.
    Action(Pipe),
    /// `{{$x := .a}}`: a variable is declared.
    Declare(Boxed<Text>, Pipe),
    /// `{{$x = .a}}`: a variable gets another value.
    Assign(Boxed<Text>, Pipe),
    /// `{{if .a}}`, or `{{if $x := .a}}` with the variable.
    If(Boxed<Option<Text>>, Pipe),
    /// `{{with .a}}`, or `{{with $x := .a}}` with the variable.
    With(Boxed<Option<Text>>, Pipe),
    /// `{{range .a}}`; the first name is the variable of the index, the second that of the element, which stands alone in
    /// `{{range $e := .a}}`.
    Range(Boxed<Option<Text>>, Boxed<Option<Text>>, Pipe),
    /// `{{break}}`
    Break,
    /// `{{continue}}`
    Continue,
    /// `{{template "n"}}` by the name, or `{{template "n" .a}}` with the pipe. A `block` is such a call too.
    Template(Boxed<Text>, Option<Pipe>),
}

impl NodeKind {
    /// An equal one. Fails only if allocation fails.
    pub fn copy(&self, alloc: Global) -> Result<NodeKind, Memory>
        ensures { IfOk result (λ copy. copy ≡ self.now) }
    {
        match self {
            NodeKind::Text(text) => Ok(NodeKind::Text(copy_text(alloc, text)?)),
            NodeKind::Action(pipe) => Ok(NodeKind::Action(pipe.copy(alloc)?)),
            NodeKind::Declare(name, pipe) => {
                Ok(NodeKind::Declare(copy_boxed(alloc, name)?, pipe.copy(alloc)?))
            }
            NodeKind::Assign(name, pipe) => {
                Ok(NodeKind::Assign(copy_boxed(alloc, name)?, pipe.copy(alloc)?))
            }
            NodeKind::If(name, pipe) => Ok(NodeKind::If(
                copy_name(alloc, name)?,
                pipe.copy(alloc)?,
            )),
            NodeKind::With(name, pipe) => {
                Ok(NodeKind::With(copy_name(alloc, name)?, pipe.copy(alloc)?))
            }
            NodeKind::Range(index, element, pipe) => Ok(NodeKind::Range(
                copy_name(alloc, index)?,
                copy_name(alloc, element)?,
                pipe.copy(alloc)?,
            )),
            NodeKind::Break => Ok(NodeKind::Break),
            NodeKind::Continue => Ok(NodeKind::Continue),
            NodeKind::Template(name, pipe) => {
                Ok(NodeKind::Template(copy_boxed(alloc, name)?, copy_argument(alloc, pipe)?))
            }
        }
    }
}

fn copy_text(alloc: Global, text: &Text) -> Result<Text, Memory>
    ensures { IfOk result (λ copy. copy ≡ text.now) }
{
    Text::copy_of(alloc, text.as_str())
}

fn copy_boxed(alloc: Global, text: &Boxed<Text>) -> Result<Boxed<Text>, Memory>
    ensures { IfOk result (λ copy. copy ≡ text.now) }
{
    Boxed::new(alloc, copy_text(alloc, text.get())?)
}

// The name of a variable, where there is one.
fn copy_name(alloc: Global, name: &Boxed<Option<Text>>) -> Result<Boxed<Option<Text>>, Memory>
    ensures { IfOk result (λ copy. copy ≡ name.now) }
{
    match name.get() {
        Some(name) => Boxed::new(alloc, Some(copy_text(alloc, name)?)),
        None => Boxed::new(alloc, None),
    }
}

// The pipe of a `template`, where there is one.
fn copy_argument(alloc: Global, pipe: &Option<Pipe>) -> Result<Option<Pipe>, Memory>
    ensures { IfOk result (λ copy. copy ≡ pipe.now) }
{
    match pipe {
        Some(pipe) => Ok(Some(pipe.copy(alloc)?)),
        None => Ok(None),
    }
}
