ghost use Rattle.std.specs.Prelude.{◌+◌, ◌≤◌};
ghost use Rattle.tpl_exec.specs.Meaning.{max_calls};
ghost use Rattle.tpl_exec.specs.OpenCalls.{open_calls};

use crate::element::{element_at, has_elements};
use crate::fault::fault;
use crate::frame::{Frame, LoopHeader, OpenCall, OpenLoop, OpenPart, boxed, unboxed};
use crate::node::{Node, NodeBody, body_named, first_of, node_at};
use crate::progress::{Emission, ExecEvent, Progress};
use crate::stop::ExecStop;
use crate::variables::{declare, declare_lent};
use page_datum::{DatumRef, FaultKind, ValueStop};
use page_io::{Memory, Stack, Text};
use std::alloc::Global;
use tpl_eval::{MAX_STEPS, Scope, Value, VariableStack, counted, evaluate, is_dot};
use tpl_tree::{Forest, NodeKind, Pipe};
use tpl_value::truth;

/// The most calls that may be open at once.
pub const MAX_CALLS: u32 = 256;

/// The execution of a template, one node at a time: what is open stands in a stack.
#[derive(Drop)]
pub(crate) struct Machine<'d> {
    /// The body that is executed.
    body: NodeBody<'d>,
    /// The node that is next.
    node: Option<u32>,
    dot: Value<'d>,
    variables: VariableStack<'d>,
    /// The steps up to here.
    steps: u64,
    /// What is open.
    frames: Stack<Frame<'d>>,
    /// How many more calls may be open.
    calls: u32,
    ghost bound: { calls + open_calls frames ≤ max_calls },
}

impl<'d> Machine<'d> {
    ghost use Rattle.std.specs.Prelude.{◌≡◌, ◌<◌, IfOk, IsTrue, Ok};
    ghost use Rattle.tpl_exec.specs.MachineCalls.{after_loop_of, broken_off_of, call_left};
    ghost use Rattle.tpl_exec.specs.MachineCalls.{control_left, emitted_of, machine_end, if_of};
    ghost use Rattle.tpl_exec.specs.MachineCalls.{loop_left_of, machine_node, part_left};
    ghost use Rattle.tpl_exec.specs.MachineCalls.{machine_part};
    ghost use Rattle.tpl_exec.specs.MachineCalls.{is_control_node, machine_start, turn_of};
    ghost use Rattle.tpl_exec.specs.MachineCalls.{ArgumentAnswers, CallAnswers, PipeAnswers};
    ghost use Rattle.tpl_exec.specs.MachineCalls.{RangeAnswers, WithAnswers};
    ghost use Rattle.tpl_exec.specs.MachineView.{MachineAdvanceAnswers, machine_view, next_progress};

    // After a control.
    fn after_control(&mut self, dot: Option<Value<'d>>, next: Option<u32>, count: usize)
        ensures { machine_view self.new ≡ control_left self.old dot.entry next count }
    {
        if let Some(dot) = dot {
            self.dot = dot;
        }
        self.node = next;
        self.variables.truncate(count);
    }

    // After a part of a control, with what is next there.
    fn after_part(&mut self, part: OpenPart<'d>, next: Option<u32>)
        ensures { machine_view self.new ≡ part_left self.old part.entry next }
    {
        let OpenPart { dot, count, .. } = part;
        let dot = unboxed(dot);
        self.after_control(dot, next, count);
    }

    // After a loop.
    fn after_loop(&mut self, inner: Box<OpenLoop<'d>>)
        ensures { machine_view self.new ≡ after_loop_of self.old inner.entry.value }
    {
        let OpenLoop {
            dot,
            next,
            count,
            ..
        } = Box::into_inner(inner);
        self.after_control(Some(dot), next, count);
    }

    // After a call that was taken off what is open.
    fn after_call(&mut self, call: OpenCall<'d>) -> Progress<'d>
        requires { self.now.calls + open_calls self.now.frames < max_calls }
        ensures { MachineAdvanceAnswers (call_left self.old call.entry) (Ok result) self.new }
    {
        self.body = call.body;
        self.node = call.next;
        self.dot = call.dot;
        // The checker refuses a plain assignment of a field that has a model and a lifetime.
        drop(std::mem::replace(&mut self.variables, call.variables));
        self.calls += 1;
        Progress::Emits(Emission {
            event: ExecEvent::Leave,
            template: call.body.name,
            line: call.line,
        })
    }

    // One more turn of a loop that was taken off what is open, or what follows it.
    #[inline(always)]
    fn next_turn(
        &mut self,
        alloc: Global,
        inner: Box<OpenLoop<'d>>,
    ) -> Result<Progress<'d>, ExecStop>
        ensures { MachineAdvanceAnswers (turn_of self.old inner.entry.value) result self.new }
    {
        let mut inner = inner;
        let element = match element_at(inner.source, inner.at) {
            Some(element) => element,
            None => {
                self.after_loop(inner);
                return Ok(Progress::Continues);
            }
        };
        let steps = match counted(1, self.steps) {
            Ok(steps) => steps,
            Err(kind) => return Err(fault(alloc, self.body.name, inner.header.line, kind)),
        };
        self.variables.truncate(inner.count);
        declare_lent(&mut self.variables, inner.header.index, element.index)?;
        declare_lent(&mut self.variables, inner.header.element, element.value)?;
        self.node = inner.header.first;
        self.dot = Value::Lent(element.value);
        self.steps = steps;
        inner.at += 1;
        self.frames.push(Frame::Loop(inner))?;
        Ok(Progress::Continues)
    }

    // No node is next: the innermost open thing ends, or a loop has its next turn.
    #[inline(always)]
    fn ended(&mut self, alloc: Global) -> Result<Progress<'d>, ExecStop>
        ensures { MachineAdvanceAnswers (machine_end self.old) result self.new }
    {
        match self.frames.pop() {
            None => Ok(Progress::Finishes),
            Some(Frame::Part(part)) => {
                let next = part.next;
                self.after_part(part, next);
                Ok(Progress::Continues)
            }
            Some(Frame::Loop(inner)) => self.next_turn(alloc, inner),
            Some(Frame::Call(call)) => Ok(self.after_call(Box::into_inner(call))),
        }
    }

    // The innermost loop, which was taken off what is open, ends, or its turn does.
    fn loop_left(&mut self, ends: bool, inner: Box<OpenLoop<'d>>) -> Result<Progress<'d>, ExecStop>
        ensures { MachineAdvanceAnswers (loop_left_of ends self.old inner.entry.value)
            result self.new }
    {
        if ends {
            self.after_loop(inner);
            return Ok(Progress::Continues);
        }
        self.node = None;
        self.frames.push(Frame::Loop(inner))?;
        Ok(Progress::Continues)
    }

    // A `break` ends the innermost loop of this call, a `continue` its turn.
    fn broken_off(&mut self, ends: bool) -> Result<Progress<'d>, ExecStop>
        ensures { MachineAdvanceAnswers (broken_off_of ends self.old) result self.new }
    {
        loop {
            match self.frames.pop() {
                None => return Ok(Progress::Finishes),
                Some(Frame::Part(part)) => self.after_part(part, None),
                Some(Frame::Loop(inner)) => return self.loop_left(ends, inner),
                Some(Frame::Call(call)) => return Ok(self.after_call(Box::into_inner(call))),
            }
        }
    }

    // The value of a pipe of a node on a line, and the steps up to there. Dot alone is given without evaluating anything.
    #[inline(always)]
    fn evaluated(
        &self,
        alloc: Global,
        line: u32,
        pipe: &'d Pipe,
        steps: u64,
    ) -> Result<(Value<'d>, u64), ExecStop>
        ensures { PipeAnswers self.now line pipe.now steps result }
    {
        if steps < MAX_STEPS && is_dot(pipe) {
            if let Value::Lent(datum) = self.dot {
                return Ok((Value::Lent(datum), steps + 1));
            }
        }
        self.pipe_evaluated(alloc, line, pipe, steps)
    }

    // The same, of any pipe.
    #[inline(never)]
    fn pipe_evaluated(
        &self,
        alloc: Global,
        line: u32,
        pipe: &'d Pipe,
        steps: u64,
    ) -> Result<(Value<'d>, u64), ExecStop>
        ensures { PipeAnswers self.now line pipe.now steps result }
    {
        let scope = Scope {
            dot: &self.dot,
            variables: &self.variables,
        };
        match evaluate(alloc, scope, pipe, steps) {
            Ok((value, steps)) => Ok((value, steps)),
            Err(ValueStop::Fault(kind)) => Err(fault(alloc, self.body.name, line, kind)),
            Err(ValueStop::Memory) => Err(ExecStop::Memory),
        }
    }

    // The argument of a call, which is null where none is written.
    fn argument(
        &self,
        alloc: Global,
        line: u32,
        pipe: &'d Option<Pipe>,
        steps: u64,
    ) -> Result<(Value<'d>, u64), ExecStop>
        ensures { ArgumentAnswers self.now line pipe.now steps result }
    {
        match pipe {
            Some(pipe) => self.evaluated(alloc, line, pipe, steps),
            None => Ok((Value::Lent(DatumRef::Null), steps)),
        }
    }

    // An event of a node of this body.
    fn emitted(&self, line: u32, event: ExecEvent<'d>) -> Progress<'d>
        ensures { MachineAdvanceAnswers (emitted_of self.now line event.entry)
            (Ok result) self.now }
    {
        Progress::Emits(Emission {
            event,
            template: self.body.name,
            line,
        })
    }

    // In a part of a control, after which so many variables remain.
    fn opened(
        &mut self,
        outer: Option<Box<Value<'d>>>,
        part: Option<u32>,
        next: Option<u32>,
        count: usize,
    ) -> Result<Progress<'d>, ExecStop>
        ensures { MachineAdvanceAnswers (machine_part self.old outer.entry part next count)
            result self.new }
    {
        self.node = part;
        self.frames.push(Frame::Part(OpenPart {
            dot: outer,
            next,
            count,
        }))?;
        Ok(Progress::Continues)
    }

    // An `if` with its value.
    fn if_advance(
        &mut self,
        node: Node<'d>,
        name: &'d Option<Text>,
        value: Value<'d>,
    ) -> Result<Progress<'d>, ExecStop>
        ensures { MachineAdvanceAnswers (if_of self.old node.entry name.now value.entry)
            result self.new }
    {
        let count = self.variables.len();
        declare(&mut self.variables, name, &value)?;
        if truth(value.datum()) {
            return self.opened(None, node.first, node.next, count);
        }
        self.opened(None, node.other, node.next, count)
    }

    // A `with` with its value.
    fn with_advance(
        &mut self,
        alloc: Global,
        node: Node<'d>,
        name: &'d Option<Text>,
        value: Value<'d>,
    ) -> Result<Progress<'d>, ExecStop>
        ensures { WithAnswers self.old node.entry name.now value.entry result self.new }
    {
        let count = self.variables.len();
        declare(&mut self.variables, name, &value)?;
        if truth(value.datum()) {
            let outer = std::mem::replace(&mut self.dot, value);
            return self.opened(Some(boxed(alloc, outer)?), node.first, node.next, count);
        }
        self.opened(None, node.other, node.next, count)
    }

    // A range over a value: to its loop, whose first turn is next, or to its `else` part.
    fn range_advance(
        &mut self,
        alloc: Global,
        node: Node<'d>,
        header: LoopHeader<'d>,
        source: Value<'d>,
    ) -> Result<Progress<'d>, ExecStop>
        ensures { RangeAnswers self.old node.entry header.entry source.entry result self.new }
    {
        let Value::Lent(source) = source else {
            return Err(fault(alloc, self.body.name, header.line, FaultKind::NotRangeable));
        };
        let count = self.variables.len();
        match has_elements(source) {
            None => Err(fault(alloc, self.body.name, header.line, FaultKind::NotRangeable)),
            Some(false) => self.opened(None, node.other, node.next, count),
            Some(true) => {
                let dot = self.dot.copy()?;
                self.node = None;
                let inner = OpenLoop {
                    dot,
                    header,
                    source,
                    at: 0,
                    next: node.next,
                    count,
                };
                self.frames.push(Frame::Loop(boxed(alloc, inner)?))?;
                Ok(Progress::Continues)
            }
        }
    }

    // A call with its argument, where one more may be open.
    fn call_advance(
        &mut self,
        alloc: Global,
        forest: &'d Forest,
        node: Node<'d>,
        name: &'d str,
        value: Value<'d>,
    ) -> Result<Progress<'d>, ExecStop>
        ensures { CallAnswers forest.now self.old node.entry name.now value.entry result self.new }
    {
        if self.calls == 0 {
            return Err(fault(alloc, self.body.name, node.line, FaultKind::Depth));
        }
        let variables = VariableStack::root(alloc, value.copy()?)?;
        let caller = self.body;
        self.calls -= 1;
        let call = OpenCall {
            body: caller,
            dot: std::mem::replace(&mut self.dot, value),
            line: node.line,
            next: node.next,
            variables: std::mem::replace(&mut self.variables, variables),
        };
        self.frames.push(Frame::Call(boxed(alloc, call)?))?;
        self.body = body_named(forest, name);
        self.node = first_of(self.body);
        Ok(Progress::Emits(Emission {
            event: ExecEvent::Enter(node.number),
            template: caller.name,
            line: node.line,
        }))
    }

    // A node that is neither a text nor a hole, given the steps with its own. It is apart from these two, which are most nodes, so
    // that they do not prepare for the answers of all the others.
    #[inline(never)]
    fn control_advance(
        &mut self,
        alloc: Global,
        forest: &'d Forest,
        node: Node<'d>,
        steps: u64,
    ) -> Result<Progress<'d>, ExecStop>
        requires { IsTrue (is_control_node node.kind.now) }
        ensures { MachineAdvanceAnswers (machine_node forest.now self.old node.entry steps)
            result self.new }
    {
        match node.kind {
            NodeKind::Text(_) | NodeKind::Action(_) => unreachable!(),
            NodeKind::Declare(name, pipe) => match self.evaluated(alloc, node.line, pipe, steps) {
                Ok((value, steps)) => {
                    self.variables.push(name.get().as_str(), value)?;
                    self.node = node.next;
                    self.steps = steps;
                    Ok(Progress::Continues)
                }
                Err(stop) => Err(stop),
            },
            NodeKind::Assign(name, pipe) => match self.evaluated(alloc, node.line, pipe, steps) {
                Ok((value, steps)) => {
                    self.variables.assign(name.get().as_str(), value);
                    self.node = node.next;
                    self.steps = steps;
                    Ok(Progress::Continues)
                }
                Err(stop) => Err(stop),
            },
            NodeKind::If(name, pipe) => match self.evaluated(alloc, node.line, pipe, steps) {
                Ok((value, steps)) => {
                    self.steps = steps;
                    self.if_advance(node, name.get(), value)
                }
                Err(stop) => Err(stop),
            },
            NodeKind::With(name, pipe) => match self.evaluated(alloc, node.line, pipe, steps) {
                Ok((value, steps)) => {
                    self.steps = steps;
                    self.with_advance(alloc, node, name.get(), value)
                }
                Err(stop) => Err(stop),
            },
            NodeKind::Range(index, element, pipe) => {
                match self.evaluated(alloc, node.line, pipe, steps) {
                    Ok((source, steps)) => {
                        let header = LoopHeader {
                            line: node.line,
                            index: index.get(),
                            element: element.get(),
                            first: node.first,
                        };
                        self.steps = steps;
                        self.range_advance(alloc, node, header, source)
                    }
                    Err(stop) => Err(stop),
                }
            }
            NodeKind::Break => {
                self.node = None;
                self.steps = steps;
                self.broken_off(true)
            }
            NodeKind::Continue => {
                self.node = None;
                self.steps = steps;
                self.broken_off(false)
            }
            NodeKind::Template(name, pipe) => match self.argument(alloc, node.line, pipe, steps) {
                Ok((value, steps)) => {
                    self.steps = steps;
                    self.call_advance(alloc, forest, node, name.get().as_str(), value)
                }
                Err(stop) => Err(stop),
            },
        }
    }

    // A node, given the steps with its own.
    #[inline(always)]
    fn node_advance(
        &mut self,
        alloc: Global,
        forest: &'d Forest,
        node: Node<'d>,
        steps: u64,
    ) -> Result<Progress<'d>, ExecStop>
        ensures { MachineAdvanceAnswers (machine_node forest.now self.old node.entry steps)
            result self.new }
    {
        match node.kind {
            NodeKind::Text(_) => {
                self.node = node.next;
                self.steps = steps;
                Ok(self.emitted(node.line, ExecEvent::Text(node.number)))
            }
            NodeKind::Action(pipe) => match self.evaluated(alloc, node.line, pipe, steps) {
                Ok((value, steps)) => {
                    self.node = node.next;
                    self.steps = steps;
                    Ok(self.emitted(node.line, ExecEvent::Hole(node.number, value)))
                }
                Err(stop) => Err(stop),
            },
            _ => self.control_advance(alloc, forest, node, steps),
        }
    }

    /// Executes the next node, or ends the innermost open thing where none is next. The errors are the faults of the template, and out
    /// of memory.
    #[inline(always)]
    pub(crate) fn advance(
        &mut self,
        alloc: Global,
        forest: &'d Forest,
    ) -> Result<Progress<'d>, ExecStop>
        ensures { MachineAdvanceAnswers (next_progress forest.now self.old) result self.new }
    {
        let node = match node_at(self.body, self.node) {
            Some(node) => node,
            None => return self.ended(alloc),
        };
        match counted(1, self.steps) {
            Ok(steps) => self.node_advance(alloc, forest, node, steps),
            Err(kind) => Err(fault(alloc, self.body.name, node.line, kind)),
        }
    }

    /// The machine before anything: a template by its name with a datum, which is dot and `$`. Fails only if allocation fails.
    pub(crate) fn start(
        alloc: Global,
        forest: &'d Forest,
        root: &'d str,
        datum: DatumRef<'d>,
    ) -> Result<Machine<'d>, Memory>
        ensures { let start = machine_start forest.now root.now datum.entry in
            IfOk result (λ m. machine_view m ≡ start) }
    {
        let body = body_named(forest, root);
        Ok(Machine {
            body,
            node: first_of(body),
            dot: Value::Lent(datum),
            variables: VariableStack::root(alloc, Value::Lent(datum))?,
            steps: 0,
            frames: Stack::new(alloc),
            calls: MAX_CALLS,
        })
    }

    /// The steps up to here.
    pub(crate) fn steps(&self) -> u64
        ensures { result ≡ (machine_view self.now).state.steps }
    {
        self.steps
    }
}
