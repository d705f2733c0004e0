ghost use Rattle.std.specs.Prelude.{◌≡◌, ◌<◌, ◌++◌, ◌∷◌, [], IfSome, OnErr, OnOk, Some, false, length, slice_get};
ghost use Rattle.place_chart.specs.Summaries.{AreRaised, IsTaken, chart_of, pair_number};
ghost use Rattle.place_chart.specs.Summaries as spec;

use crate::numbers::{add_number, numbers_of};
use crate::search::first_at;
use crate::summary::{Summary, empty_summary, point_state_at, raise};
use page_io::Memory;
use place_core::Place;
use place_flow::PointState;
use std::alloc::Global;
use std::marker::Model;
use std::mem;
use tpl_paths::Point;

/// Summaries of pairs, found by their pairs. Contracts see the summaries in order.
#[derive(Debug, Drop)]
pub struct Summaries {
    summaries: Vec<Summary>,
    // the numbers of the summaries of each template, ascending
    of_template: Vec<Vec<u32>>,
}

impl Model for Summaries {
    ghost use Rattle.std.specs.Prelude.{List};
    ghost use Rattle.place_chart.specs.declared.summary.Summary.{Summary};

    ghost Value = { List Summary };

    ghost use Rattle.place_chart.specs.Numbers.{AreNumbers};

    ghost view = { λ r. r.summaries.items };

    ghost invariant = { λ r. AreNumbers r.summaries.items r.of_template.items };
}

impl Summaries {
    /// No summaries yet.
    pub fn new(alloc: Global) -> Summaries
        ensures { result ≡ [] }
    {
        Summaries {
            summaries: Vec::new(alloc),
            of_template: Vec::new(alloc),
        }
    }

    /// How many summaries there are.
    pub fn count(&self) -> usize
        ensures { result ≡ length self.now }
    {
        self.summaries.len()
    }

    /// A summary, by its number.
    pub fn summary(&self, n: usize) -> &Summary
        requires { n < length self.now }
        ensures { slice_get self.now n ≡ Some result.now }
    {
        &self.summaries[n]
    }

    /// The number of the first summary of a pair. It does not allocate, and time in proportion to the summaries of the template.
    pub fn find(&self, template: u32, entry: Place) -> Option<usize>
        ensures number { result ≡ pair_number self.now template entry }
        ensures within { IfSome result (λ n. n < length self.now) }
    {
        let summaries = &self.summaries;
        let numbers = numbers_of(self.of_template.as_slice(), template);
        first_at(summaries.as_slice(), numbers, entry)
    }

    /// What a point of a summary has. Past the last summary nothing does.
    pub fn point_state_of(&self, n: usize, point: Point) -> PointState
        ensures { result ≡ spec.point_state_of (slice_get self.now n) point }
    {
        match self.summaries.get(n) {
            Some(summary) => point_state_at(summary, point),
            None => PointState::Unreached,
        }
    }

    /// What a point of a pair has.
    pub fn point_state_of_pair(&self, template: u32, entry: Place, point: Point) -> PointState
        ensures { result ≡ chart_of self.now template entry point }
    {
        match self.find(template, entry) {
            Some(n) => point_state_at(self.summary(n), point),
            None => PointState::Unreached,
        }
    }

    /// Adds a summary after the others, or leaves them as they were. Fails if allocation fails, or on more than `u32::MAX` summaries.
    pub fn push(&mut self, summary: Summary) -> Result<(), Memory>
        ensures ok { OnOk result (self.new ≡ self.old ++ summary ∷ []) }
        ensures err { OnErr result (self.new ≡ self.old) }
    {
        let number = self.summaries.len();
        if number >= u32::MAX as usize {
            return Err(Memory);
        }
        let template = summary.template;
        self.summaries.push(summary)?;
        match add_number(&mut self.of_template, template, number as u32) {
            Ok(()) => Ok(()),
            Err(Memory) => {
                self.summaries.pop();
                Err(Memory)
            }
        }
    }

    /// Takes a summary out of these, and leaves one of the same pair that has nothing at any point. Does not allocate.
    pub fn take(&mut self, alloc: Global, n: usize) -> Summary
        requires { n < length self.old }
        ensures taken { slice_get self.old n ≡ Some result }
        ensures left { IsTaken self.old self.new n }
    {
        let pair = &self.summaries[n];
        let left = empty_summary(alloc, pair.template, pair.entry);
        mem::replace(&mut self.summaries[n], left)
    }

    /// Raises what a point of a summary has, and reports whether that is more than before.
    pub fn raise(&mut self, n: usize, point: Point, by: PointState) -> bool
        requires { n < length self.old }
        ensures raised { AreRaised self.old self.new n point by }
        ensures kept { result ≡ false → self.new ≡ self.old }
    {
        raise(&mut self.summaries[n], point, by)
    }
}
