ghost use Rattle.std.specs.Prelude.{◌≡◌, ◌<◌, ◌≤◌, IfOk, Some, None, length, option_map, slice_get};
ghost use Rattle.place_core.specs.declared.place.Place.TheVariants as place;
ghost use Rattle.place_infer.specs.ChartViews.{ArePairCalls, call_in, chain_in, place_in};
ghost use Rattle.place_infer.specs.Inferring.{most_pairs};
ghost use Rattle.place_chart.specs.Summaries.{pair_number};
ghost use Rattle.tpl_paths.specs.Edges.{before, finish_point, head};

use crate::calls::calls_of;
use html_step::after_hole;
use page_io::Memory;
use place_chart::{Summaries, point_state_at};
use place_core::{Chain, Place, TEXT};
use place_flow::PointState;
use std::alloc::Global;
use std::marker::Model;
use tpl_paths::Point;
use tpl_tree::Forest;

/// The chart of a set of templates. Its pairs, of a template and a place in which it is entered, are numbered from 0. Contracts see it as
/// `ChartData` of `specs/ChartViews.antt`.
#[derive(Debug, Drop)]
pub struct Chart {
    summaries: Summaries,
    calls: Vec<Vec<Option<u32>>>,
}

impl Model for Chart {
    ghost use Rattle.std.specs.Prelude.{◌≤◌, length, map};
    ghost use Rattle.place_infer.specs.ChartViews.{ChartData};
    ghost use Rattle.place_infer.specs.Inferring.{most_pairs};

    ghost Value = { ChartData };

    ghost view = { λ c. record { summaries = c.summaries; calls = map (λ v. v.items) c.calls.items } };

    ghost invariant = { λ c. length c.summaries ≤ most_pairs };
}

/// The chart of some summaries. Fails only if allocation fails.
pub fn chart_of_summaries(
    alloc: Global,
    forest: &Forest,
    summaries: Summaries,
) -> Result<Chart, Memory>
    requires { length summaries ≤ most_pairs }
    ensures summaries { IfOk result (λ chart. chart.summaries ≡ summaries) }
    ensures calls { IfOk result (λ chart. ArePairCalls forest.now summaries chart.calls) }
{
    let calls = calls_of(alloc, forest, &summaries)?;
    Ok(Chart { summaries, calls })
}

impl Chart {
    /// How many pairs there are.
    pub fn pairs(&self) -> usize
        ensures count { result ≡ length self.now.summaries }
        ensures few { result ≤ most_pairs }
    {
        self.summaries.count()
    }

    /// A pair: the number of its template in the forest, and the place in which that is entered.
    pub fn pair(&self, n: u32) -> (u32, Place)
        requires { n < length self.now.summaries }
        ensures { option_map (λ summary. (summary.template, summary.entry))
            (slice_get self.now.summaries n)
            ≡ Some result }
    {
        let summary = self.summaries.summary(n as usize);
        (summary.template, summary.entry)
    }

    // The place at a point of a pair.
    fn place_at(&self, n: u32, point: Point) -> Option<Place>
        ensures { result ≡ place_in self.now.summaries n point }
    {
        if n as usize >= self.summaries.count() {
            return None;
        }
        match point_state_at(self.summaries.summary(n as usize), point) {
            PointState::At(place) => Some(place),
            _ => None,
        }
    }

    /// The place before a node of a pair; of a range, before its first turn. None where no path comes there.
    pub fn place(&self, n: u32, node: u32) -> Option<Place>
        ensures { result ≡ place_in self.now.summaries n (before node) }
    {
        self.place_at(n, Point::Before(node))
    }

    /// The place before each turn of a range of a pair, which stands for the first and for further ones. None where no path comes there.
    pub fn head(&self, n: u32, node: u32) -> Option<Place>
        ensures { result ≡ place_in self.now.summaries n (head node) }
    {
        self.place_at(n, Point::Head(node))
    }

    /// The place at the end of a pair's template. None where no path comes there.
    pub fn after(&self, n: u32) -> Option<Place>
        ensures { result ≡ place_in self.now.summaries n finish_point }
    {
        self.place_at(n, Point::Finish)
    }

    /// What is done to the values of a hole, which is a node of a pair: by the place before it. None where no path comes there.
    pub fn chain(&self, n: u32, node: u32) -> Option<Chain>
        ensures { result ≡ chain_in (place_in self.now.summaries n (before node)) }
    {
        match self.place(n, node) {
            Some(place) => match after_hole(place) {
                Ok((_, chain)) => Some(chain),
                Err(_) => None,
            },
            None => None,
        }
    }

    /// The pair that a node of a pair calls: the template of that name, entered in the place before the node. None where the node is no call, and
    /// where no path comes there.
    pub fn call(&self, n: u32, node: u32) -> Option<u32>
        ensures { result ≡ call_in self.now.calls n node }
    {
        match self.calls.get(n as usize) {
            Some(calls) => match calls.get(node as usize) {
                Some(call) => *call,
                None => None,
            },
            None => None,
        }
    }

    /// The pair of a root: its template, entered in text. None for other templates.
    pub fn start(&self, root: u32) -> Option<u32>
        ensures { result ≡ pair_number self.now.summaries root place.Text }
    {
        match self.summaries.find(root, TEXT) {
            Some(n) => Some(n as u32),
            None => None,
        }
    }
}
