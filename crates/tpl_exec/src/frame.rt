ghost use Rattle.std.specs.Prelude.{◌≡◌, IfOk};
ghost use Rattle.tpl_exec.specs.Variables.{dot_view, outer_view};

use crate::node::NodeBody;
use page_datum::DatumRef;
use page_io::{Memory, Text};
use std::alloc::Global;
use tpl_eval::{Value, VariableStack};

/// A control whose part is executed.
#[derive(Drop)]
pub(crate) struct OpenPart<'d> {
    /// The dot that holds after it, where it is another one.
    pub(crate) dot: Option<Box<Value<'d>>>,
    /// What follows it.
    pub(crate) next: Option<u32>,
    /// How many variables remain after it.
    pub(crate) count: usize,
}

/// What all turns of a range have alike.
#[derive(Clone, Copy, Drop)]
pub(crate) struct LoopHeader<'d> {
    /// The line of the range.
    pub(crate) line: u32,
    /// The names of its variables.
    pub(crate) index: &'d Option<Text>,
    pub(crate) element: &'d Option<Text>,
    /// The nodes of a turn.
    pub(crate) first: Option<u32>,
}

/// A range whose turns go on.
#[derive(Drop)]
pub(crate) struct OpenLoop<'d> {
    /// The dot that holds after it.
    pub(crate) dot: Value<'d>,
    pub(crate) header: LoopHeader<'d>,
    /// What is gone over.
    pub(crate) source: DatumRef<'d>,
    /// How many of its elements are gone.
    pub(crate) at: usize,
    /// What follows it.
    pub(crate) next: Option<u32>,
    /// How many variables remain after it.
    pub(crate) count: usize,
}

/// The caller of a template that is executed.
#[derive(Drop)]
pub(crate) struct OpenCall<'d> {
    pub(crate) body: NodeBody<'d>,
    pub(crate) dot: Value<'d>,
    /// The line of the call.
    pub(crate) line: u32,
    /// What follows it.
    pub(crate) next: Option<u32>,
    pub(crate) variables: VariableStack<'d>,
}

/// What is open. It is small, since it is moved when it is put on a stack and when it is taken off.
#[derive(Drop)]
pub(crate) enum Frame<'d> {
    Part(OpenPart<'d>),
    Loop(Box<OpenLoop<'d>>),
    Call(Box<OpenCall<'d>>),
}

/// A value in a box of its own. Fails only if allocation fails.
pub(crate) fn boxed<T: Drop>(alloc: Global, value: T) -> Result<Box<T>, Memory>
    ensures { IfOk result (λ box. box.value ≡ value) }
{
    Ok(Box::new(alloc, value)?)
}

/// A dot out of its box, where there is one.
pub(crate) fn unboxed<'d>(dot: Option<Box<Value<'d>>>) -> Option<Value<'d>>
    ensures { dot_view result ≡ outer_view dot.entry }
{
    match dot {
        Some(dot) => Some(Box::into_inner(dot)),
        None => None,
    }
}
