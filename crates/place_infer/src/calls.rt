ghost use Rattle.std.specs.Prelude.{◌≡◌, ◌<◌, ◌≤◌, ◌-◌, ℕ, IfOk, IsTrue, None, Some};
ghost use Rattle.std.specs.Prelude.{length, map, slice_get, slice_index_or};
ghost use Rattle.place_flow.specs.Flows.{nodes_at};
ghost use Rattle.place_infer.specs.ChartViews.{ArePairCalls, chart_call, called_at, pair_at};
ghost use Rattle.place_infer.specs.Inferring.{most_pairs};
ghost use Rattle.place_chart.specs.Exact.{point_place};
ghost use Rattle.place_chart.specs.Summaries.{point_state_in};
ghost use Rattle.tpl_paths.specs.Edges.{before};
ghost use Rattle.tpl_tree.specs.Trees.{nodes_size};

use page_io::Memory;
use place_chart::{Summaries, Summary, point_state_at};
use place_core::Place;
use place_flow::PointState;
use std::alloc::Global;
use tpl_paths::Point;
use tpl_tree::{Forest, NodeKind, Tree};

// The pair that a node calls from a place.
fn called_from(forest: &Forest, summaries: &Summaries, kind: &NodeKind, place: Place) -> Option<u32>
    requires { length summaries.now ≤ most_pairs }
    ensures { result ≡ called_at forest.now summaries.now kind.now place }
{
    match kind {
        NodeKind::Template(name, _) => match forest.find(name.get().as_str()) {
            Some(callee) => match summaries.find(callee, place) {
                Some(n) => Some(n as u32),
                None => None,
            },
            None => None,
        },
        _ => None,
    }
}

// The pair that a node of a summary calls.
fn called(
    forest: &Forest,
    summaries: &Summaries,
    tree: &Tree,
    summary: &Summary,
    node: u32,
) -> Option<u32>
    requires node { node < nodes_size tree.now.nodes }
    requires few { length summaries.now ≤ most_pairs }
    ensures { nodes_at forest.now summary.now.template ≡ tree.now.nodes
        → result ≡ chart_call forest.now summaries.now summary.now node }
{
    match point_state_at(summary, Point::Before(node)) {
        PointState::At(place) => called_from(forest, summaries, tree.kind(node), place),
        _ => None,
    }
}

// The pairs that the nodes of a summary call, by the nodes.
fn calls_of_tree(
    alloc: Global,
    forest: &Forest,
    summaries: &Summaries,
    tree: &Tree,
    summary: &Summary,
) -> Result<Vec<Option<u32>>, Memory>
    requires { length summaries.now ≤ most_pairs }
    ensures { IfOk result (λ calls. nodes_at forest.now summary.now.template ≡ tree.now.nodes
        → (node : ℕ)
        → slice_index_or calls.items node None
        ≡ chart_call forest.now summaries.now summary.now node) }
{
    let mut calls = Vec::with_capacity(alloc, tree.count() as usize)?;
    for node in 0..tree.count() {
        calls.push(called(forest, summaries, tree, summary, node))?;
    }
    Ok(calls)
}

// The same of a summary, without the nodes after the last call: most templates have few calls, or none.
fn calls_of_summary(
    alloc: Global,
    forest: &Forest,
    summaries: &Summaries,
    summary: &Summary,
) -> Result<Vec<Option<u32>>, Memory>
    requires { length summaries.now ≤ most_pairs }
    ensures { IfOk result (λ calls. (node : ℕ)
        → slice_index_or calls.items node None
        ≡ chart_call forest.now summaries.now summary.now node) }
{
    if summary.template as usize >= forest.count() {
        return Ok(Vec::new(alloc));
    }
    let tree = forest.tree(summary.template);
    let mut calls = calls_of_tree(alloc, forest, summaries, tree, summary)?;
    trim(&mut calls);
    Ok(calls)
}

// Whether the last of some nodes is no call.
fn ends_without(calls: &[Option<u32>]) -> bool
    ensures { IsTrue result → slice_get calls.now (length calls.now - 1) ≡ Some None }
{
    match calls.last() {
        Some(None) => true,
        _ => false,
    }
}

// Takes the nodes after the last call off.
fn trim(calls: &mut Vec<Option<u32>>)
    ensures { (node : ℕ)
        → slice_index_or calls.new.items node None ≡ slice_index_or calls.old.items node None }
{
    while ends_without(calls.as_slice()) {
        calls.pop();
    }
    calls.shrink_to_fit();
}

/// The pairs that the nodes of each summary call, by the nodes. Fails only if allocation fails.
pub fn calls_of(
    alloc: Global,
    forest: &Forest,
    summaries: &Summaries,
) -> Result<Vec<Vec<Option<u32>>>, Memory>
    requires { length summaries.now ≤ most_pairs }
    ensures { IfOk result (λ calls. ArePairCalls forest.now summaries.now
        (map (λ v. v.items) calls.items)) }
{
    let mut calls = Vec::new(alloc);
    for n in 0..summaries.count() {
        calls.push(calls_of_summary(alloc, forest, summaries, summaries.summary(n))?)?;
    }
    Ok(calls)
}
