ghost use Rattle.std.specs.Prelude.{◌≡◌, ◌<◌, ◌≤◌, ℕ, List, IfOk, OnOk, false, length};
ghost use Rattle.place_core.specs.declared.place.Place.{Place as SpecPlace};
ghost use Rattle.place_infer.specs.Kept.{AreKept, IsKeptPair};
ghost use Rattle.place_chart.specs.Least.{IsReached};
ghost use Rattle.place_chart.specs.Summaries.{chart_of, is_pair, point_state_in};
ghost use Rattle.place_chart.specs.declared.summary.Summary.{Summary as SpecSummary};
ghost use Rattle.tpl_tree.specs.Forests.{ForestData};
ghost use Rattle.tpl_paths.specs.Edges as spec;

use page_io::Memory;
use place_chart::{Summaries, Summary, empty_summary, point_state_at};
use place_core::Place;
use place_flow::{EdgeStep, Flows, PointState, transfer};
use std::alloc::Global;

// Takes the summary of a pair out of all; one with nothing at its points where there is none.
fn taken(alloc: Global, all: &mut Summaries, template: u32, entry: Place) -> Summary
    ensures template { result.template ≡ template }
    ensures entry { result.entry ≡ entry }
    ensures same { (k : spec.Point) → point_state_in result k ≡ chart_of all.old template entry k }
    ensures left { (t : ℕ) (p : SpecPlace) (k : spec.Point) → is_pair result t p ≡ false
        → chart_of all.new t p k ≡ chart_of all.old t p k }
{
    match all.find(template, entry) {
        Some(n) => all.take(alloc, n),
        None => empty_summary(alloc, template, entry),
    }
}

// Keeps a pair that is not kept yet.
fn keep_pair(
    alloc: Global,
    all: &mut Summaries,
    kept: &mut Summaries,
    template: u32,
    entry: Place,
) -> Result<(), Memory>
    ensures kept { OnOk result ((forest : ForestData) (roots : List ℕ) (first : SpecPlace)
        (whole : List SpecSummary)
        → AreKept forest roots first whole all.old kept.old
        → IsReached forest roots first kept.old template entry
        → AreKept forest roots first whole all.new kept.new) }
    ensures length { length kept.old ≤ length kept.new }
{
    if kept.find(template, entry).is_some() {
        return Ok(());
    }
    let summary = taken(alloc, all, template, entry);
    kept.push(summary)?;
    Ok(())
}

// Where an edge of a kept summary is a call, keeps its pair.
fn keep_call(
    alloc: Global,
    flows: &Flows,
    all: &mut Summaries,
    kept: &mut Summaries,
    n: usize,
    number: usize,
) -> Result<(), Memory>
    requires { n < length kept.old }
    ensures kept { OnOk result ((roots : List ℕ) (first : SpecPlace) (whole : List SpecSummary)
        → AreKept flows.now roots first whole all.old kept.old
        → AreKept flows.now roots first whole all.new kept.new) }
    ensures length { length kept.old ≤ length kept.new }
{
    let summary = kept.summary(n);
    let template = summary.template;
    if !flows.is_call(template, number) {
        return Ok(());
    }
    match flows.ends(template, number) {
        Some((from, _)) => match point_state_at(summary, from) {
            PointState::At(place) => match transfer(flows, template, number, place) {
                EdgeStep::Enters(callee, entry) => keep_pair(alloc, all, kept, callee, entry),
                _ => Ok(()),
            },
            _ => Ok(()),
        },
        None => Ok(()),
    }
}

// Keeps the pairs that a kept summary calls.
fn keep_calls(
    alloc: Global,
    flows: &Flows,
    all: &mut Summaries,
    kept: &mut Summaries,
    n: usize,
) -> Result<(), Memory>
    requires { n < length kept.old }
    ensures kept { OnOk result ((roots : List ℕ) (first : SpecPlace) (whole : List SpecSummary)
        → AreKept flows.now roots first whole all.old kept.old
        → AreKept flows.now roots first whole all.new kept.new) }
    ensures length { length kept.old ≤ length kept.new }
{
    for number in 0..flows.edge_count(kept.summary(n).template) {
        keep_call(alloc, flows, all, kept, n, number)?;
    }
    Ok(())
}

/// The summaries of the pairs that are reached from the roots, which are taken out of all: the roots in order, and then what each
/// summary calls, in the order of the nodes. Fails only if allocation fails.
pub fn reached(
    alloc: Global,
    flows: &Flows,
    roots: &[u32],
    first: Place,
    all: Summaries,
) -> Result<Summaries, Memory>
    ensures { IfOk result (λ kept. IsKeptPair flows.now roots.now first all kept) }
{
    let mut left = all;
    let mut kept = Summaries::new(alloc);
    for root in roots {
        keep_pair(alloc, &mut left, &mut kept, *root, first)?;
    }
    for n in 0..usize::MAX {
        if n >= kept.count() {
            return Ok(kept);
        }
        keep_calls(alloc, flows, &mut left, &mut kept, n)?;
    }
    Err(Memory)
}
