ghost use Rattle.std.specs.Prelude.{◌≡◌, ◌<◌, ◌≤◌, ℕ, List, OnOk, length};
ghost use Rattle.place_core.specs.declared.place.Place.{Place as SpecPlace};
ghost use Rattle.place_flow.specs.Transfer.{step_of};
ghost use Rattle.place_flow.specs.declared.point_state.PointState.TheVariants as point_state;
ghost use Rattle.place_derive.specs.Logs.{is_kept};
ghost use Rattle.place_derive.specs.Soundness.{IsSoundDerived, StaysSound};
ghost use Rattle.place_derive.specs.Tracing.{IsPairEdge};
ghost use Rattle.tpl_tree.specs.Forests.{ForestData};
ghost use Rattle.tpl_paths.specs.Edges as spec;

use crate::derivation::DerivedFrom;
use crate::derived::Derived;
use crate::pair_edge::PairEdge;
use page_io::Memory;
use place_chart::{point_state_at, through_step};
use place_core::Place;
use place_flow::{EdgeStep, Flows, PointState, transfer};
use std::alloc::Global;
use tpl_paths::Point;

/// What has more, once an edge of a pair was followed.
#[derive(Clone, Copy, Debug)]
pub struct Propagated {
    /// The end of the edge, where that has more than before.
    pub point: Option<Point>,
    /// The number of the summary that was added, where the edge entered a template.
    pub entered: Option<usize>,
}

impl Derived {
    // Enters the template that a step of an edge enters.
    fn enter_callee(
        &mut self,
        alloc: Global,
        flows: &Flows,
        edge: PairEdge,
        source: Place,
        step: EdgeStep,
    ) -> Result<Option<usize>, Memory>
        ensures sound { OnOk result ((roots : List ℕ) (first : SpecPlace) (e : spec.Edge)
            → IsPairEdge flows.now self.old.summaries edge e (point_state.At source)
            → step ≡ step_of flows.now edge.template e source
            → IsSoundDerived flows.now roots first self.old
            → IsSoundDerived flows.now roots first self.new) }
        ensures stays { OnOk result ((e : spec.Edge)
            → IsPairEdge flows.now self.old.summaries edge e (point_state.At source)
            → IsPairEdge flows.now self.new.summaries edge e (point_state.At source)) }
        ensures keeps { OnOk result (is_kept self.new.log ≡ is_kept self.old.log) }
        ensures length { length self.old.summaries ≤ length self.new.summaries }
    {
        match step {
            EdgeStep::Enters(callee, place) => {
                let from = DerivedFrom::Called(edge.template, edge.entry, edge.number);
                self.enter(alloc, flows, callee, place, from, source)
            }
            _ => Ok(None),
        }
    }

    // Follows an edge from the place at its start.
    fn propagate_from(
        &mut self,
        alloc: Global,
        flows: &Flows,
        edge: PairEdge,
        source: Place,
    ) -> Result<Propagated, Memory>
        requires { edge.summary < length self.old.summaries }
        ensures sound { OnOk result ((roots : List ℕ) (first : SpecPlace) (e : spec.Edge)
            → IsPairEdge flows.now self.old.summaries edge e (point_state.At source)
            → IsSoundDerived flows.now roots first self.old
            → IsSoundDerived flows.now roots first self.new) }
        ensures keeps { OnOk result (is_kept self.new.log ≡ is_kept self.old.log) }
        ensures length { length self.old.summaries ≤ length self.new.summaries }
    {
        let step = transfer(flows, edge.template, edge.number as usize, source);
        let entered = self.enter_callee(alloc, flows, edge, source, step)?;
        let by = through_step(&self.summaries, step);
        let point = self.raise_end(edge, PointState::At(source), by)?;
        Ok(Propagated { point, entered })
    }

    // Follows an edge from a conflict, which its end then has too.
    fn propagate_conflict(&mut self, edge: PairEdge) -> Result<Propagated, Memory>
        requires { edge.summary < length self.old.summaries }
        ensures sound { OnOk result ((forest : ForestData) (roots : List ℕ) (first : SpecPlace)
            (e : spec.Edge)
            → IsPairEdge forest self.old.summaries edge e point_state.Conflict
            → IsSoundDerived forest roots first self.old
            → IsSoundDerived forest roots first self.new) }
        ensures keeps { OnOk result (is_kept self.new.log ≡ is_kept self.old.log) }
        ensures length { length self.old.summaries ≤ length self.new.summaries }
    {
        let point = self.raise_end(edge, PointState::Conflict, PointState::Conflict)?;
        Ok(Propagated {
            point,
            entered: None,
        })
    }

    /// Follows an edge of a pair, by the number of its summary and its own: enters the template that it calls, where that pair is not
    /// yet entered; keeps the conflict, if it is the first one; raises its end by what it gives. Gives what has more than before. Fails
    /// if allocation fails, or on more than `u32::MAX` edges or summaries.
    pub fn propagate(
        &mut self,
        alloc: Global,
        flows: &Flows,
        n: usize,
        number: usize,
    ) -> Result<Propagated, Memory>
        requires { n < length self.old.summaries }
        ensures sound { OnOk result (StaysSound flows.now self.old self.new) }
        ensures keeps { OnOk result (is_kept self.new.log ≡ is_kept self.old.log) }
        ensures length { length self.old.summaries ≤ length self.new.summaries }
    {
        if number > u32::MAX as usize {
            return Err(Memory);
        }
        let summary = self.summaries.summary(n);
        match flows.ends(summary.template, number) {
            Some((from, to)) => {
                let edge = PairEdge {
                    summary: n,
                    number: number as u32,
                    template: summary.template,
                    entry: summary.entry,
                    to,
                };
                match point_state_at(summary, from) {
                    PointState::Unreached => Ok(Propagated {
                        point: None,
                        entered: None,
                    }),
                    PointState::At(source) => self.propagate_from(alloc, flows, edge, source),
                    PointState::Conflict => self.propagate_conflict(edge),
                }
            }
            None => Ok(Propagated {
                point: None,
                entered: None,
            }),
        }
    }
}
