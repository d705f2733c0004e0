ghost use Rattle.std.specs.Prelude.{◌≡◌, ◌<◌, ◌≤◌, ℕ, List, Contains, IfOk, OnOk, length};
ghost use Rattle.place_core.specs.declared.place.Place.TheVariants as place;
ghost use Rattle.place_derive.specs.Logs.{is_kept};
ghost use Rattle.place_derive.specs.Soundness.{IsSoundDerived, StaysSound};

use crate::outgoing::{OutgoingEdges, outgoing_of_each};
use crate::queue::{Queue, Task};
use page_io::Memory;
use place_chart::point_state_at;
use place_core::TEXT;
use place_derive::Derived;
use place_flow::{EdgeStep, Flows, PointState, transfer};
use std::alloc::Global;
use tpl_paths::Point;

// The worklist algorithm: what is derived, and the points that wait for their edges to be followed.
#[derive(Debug, Drop)]
struct Solver {
    derived: Derived,
    queue: Queue,
}

impl Solver {
    // A summary that was added waits at its start.
    fn add_summary(&mut self, alloc: Global, flows: &Flows, n: usize) -> Result<(), Memory>
        requires { n < length self.old.derived.summaries }
        ensures { self.new.derived ≡ self.old.derived }
    {
        let template = self.derived.summaries.summary(n).template;
        self.queue.add_summary(alloc, flows.points(template))?;
        self.queue.push(Task {
            summary: n,
            point: flows.start(template),
        })
    }

    // A summary that was entered waits at its start.
    fn add_entered(
        &mut self,
        alloc: Global,
        flows: &Flows,
        entered: Option<usize>,
    ) -> Result<(), Memory>
        ensures { self.new.derived ≡ self.old.derived }
    {
        match entered {
            Some(n) if n < self.derived.summaries.count() => self.add_summary(alloc, flows, n),
            _ => Ok(()),
        }
    }

    // A point of a summary that has more waits; where it is the end, the points wait from which the summary is called.
    fn push_raised(&mut self, summary: usize, point: Option<Point>) -> Result<(), Memory>
        ensures { self.new.derived ≡ self.old.derived }
    {
        match point {
            Some(Point::Finish) => self.queue.push_callers(summary),
            Some(point) => self.queue.push(Task { summary, point }),
            None => Ok(()),
        }
    }

    // Where an edge of a summary is a call, the summary that it calls has one caller more.
    fn add_caller(&mut self, flows: &Flows, task: Task, number: usize) -> Result<(), Memory>
        requires { task.summary < length self.old.derived.summaries }
        ensures { self.new.derived ≡ self.old.derived }
    {
        let summary = self.derived.summaries.summary(task.summary);
        if !flows.is_call(summary.template, number) {
            return Ok(());
        }
        match point_state_at(summary, task.point) {
            PointState::At(place) => match transfer(flows, summary.template, number, place) {
                EdgeStep::Enters(callee, entry) => match self
                    .derived
                    .summaries
                    .find(callee, entry)
                {
                    Some(called) => self.queue.add_caller(called, task),
                    None => Ok(()),
                },
                _ => Ok(()),
            },
            _ => Ok(()),
        }
    }

    // Follows an edge from a point, and lets what has more wait.
    fn follow_edge(
        &mut self,
        alloc: Global,
        flows: &Flows,
        task: Task,
        number: usize,
    ) -> Result<(), Memory>
        requires { task.summary < length self.old.derived.summaries }
        ensures sound { OnOk result (StaysSound flows.now self.old.derived self.new.derived) }
        ensures keeps { OnOk result (is_kept self.new.derived.log ≡ is_kept self.old.derived.log) }
        ensures length { length self.old.derived.summaries ≤ length self.new.derived.summaries }
    {
        let propagated = self.derived.propagate(alloc, flows, task.summary, number)?;
        self.add_entered(alloc, flows, propagated.entered)?;
        self.add_caller(flows, task, number)?;
        self.push_raised(task.summary, propagated.point)?;
        Ok(())
    }

    // Follows each edge that leads from a point.
    fn follow_point(
        &mut self,
        alloc: Global,
        flows: &Flows,
        outgoing: &OutgoingEdges,
        task: Task,
    ) -> Result<(), Memory>
        requires { task.summary < length self.old.derived.summaries }
        ensures sound { OnOk result (StaysSound flows.now self.old.derived self.new.derived) }
        ensures keeps { OnOk result (is_kept self.new.derived.log ≡ is_kept self.old.derived.log) }
        ensures length { length self.old.derived.summaries ≤ length self.new.derived.summaries }
    {
        let mut next = outgoing.first(flows, task.point);
        for _turn in 0..usize::MAX {
            match next {
                Some(number) => {
                    self.follow_edge(alloc, flows, task, number)?;
                    next = outgoing.next(flows, task.point, number);
                }
                None => return Ok(()),
            }
        }
        Err(Memory)
    }

    // Follows a task, where its summary is one.
    fn follow(
        &mut self,
        alloc: Global,
        flows: &Flows,
        outgoing: &[OutgoingEdges],
        task: Task,
    ) -> Result<(), Memory>
        ensures sound { OnOk result (StaysSound flows.now self.old.derived self.new.derived) }
        ensures keeps { OnOk result (is_kept self.new.derived.log ≡ is_kept self.old.derived.log) }
    {
        if task.summary >= self.derived.summaries.count() {
            return Ok(());
        }
        let template = self.derived.summaries.summary(task.summary).template;
        match outgoing.get(template as usize) {
            Some(outgoing) => self.follow_point(alloc, flows, outgoing, task),
            None => Ok(()),
        }
    }

    // The summary that was added last waits at its start.
    fn add_last(&mut self, alloc: Global, flows: &Flows) -> Result<(), Memory>
        ensures { self.new.derived ≡ self.old.derived }
    {
        let count = self.derived.summaries.count();
        if count > 0 {
            return self.add_summary(alloc, flows, count - 1);
        }
        Ok(())
    }

    // Enters a root in text, and lets it wait at its start.
    fn enter_root(&mut self, alloc: Global, flows: &Flows, root: u32) -> Result<(), Memory>
        ensures sound { OnOk result ((roots : List ℕ) → Contains roots root
            → IsSoundDerived flows.now roots place.Text self.old.derived
            → IsSoundDerived flows.now roots place.Text self.new.derived) }
        ensures keeps { OnOk result (is_kept self.new.derived.log ≡ is_kept self.old.derived.log) }
    {
        if self.derived.enter_root(alloc, flows, root, TEXT)? {
            self.add_last(alloc, flows)?;
            return Ok(());
        }
        Ok(())
    }

    // Enters each root in text, and lets it wait at its start.
    fn enter_roots(&mut self, alloc: Global, flows: &Flows, roots: &[u32]) -> Result<(), Memory>
        ensures sound { OnOk result (IsSoundDerived flows.now roots.now place.Text self.old.derived
            → IsSoundDerived flows.now roots.now place.Text self.new.derived) }
        ensures keeps { OnOk result (is_kept self.new.derived.log ≡ is_kept self.old.derived.log) }
    {
        for root in roots {
            self.enter_root(alloc, flows, *root)?;
        }
        Ok(())
    }
}

/// Derives all from the roots, each of which is entered in text, and keeps the log if asked to. Fails only if allocation fails.
pub fn derive(
    alloc: Global,
    flows: &Flows,
    roots: &[u32],
    keeps_log: bool,
) -> Result<Derived, Memory>
    ensures sound { IfOk result (IsSoundDerived flows.now roots.now place.Text) }
    ensures keeps { IfOk result (λ derived. is_kept derived.log ≡ keeps_log) }
{
    let outgoing = outgoing_of_each(alloc, flows)?;
    let mut solver = Solver {
        derived: Derived::new(alloc, keeps_log),
        queue: Queue::new(alloc),
    };
    solver.enter_roots(alloc, flows, roots)?;
    for _turn in 0..u64::MAX {
        match solver.queue.pop() {
            Some(task) => solver.follow(alloc, flows, &outgoing, task)?,
            None => return Ok(solver.derived),
        }
    }
    Err(Memory)
}
