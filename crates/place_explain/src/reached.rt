ghost use Rattle.std.specs.Prelude.{◌≡◌, IfOk, OnOk, slice_get};
ghost use Rattle.place_explain.specs.Explaining.{AreReached, nodes_of_summary};
ghost use Rattle.place_explain.specs.Numbers.{AreCallsAdded};
ghost use Rattle.tpl_tree.specs.Trees.{nodes_size};

use crate::numbers::Numbers;
use page_io::Memory;
use place_infer::Chart;
use std::alloc::Global;
use tpl_tree::Forest;

/// The pairs that a pair reaches, each once: itself, and those to which calls lead from it. Fails only if allocation fails.
pub fn reached_pairs(
    alloc: Global,
    forest: &Forest,
    chart: &Chart,
    start: u32,
) -> Result<Vec<u32>, Memory>
    ensures { IfOk result (λ pairs. AreReached forest.now chart.now start pairs.items) }
{
    let mut met = Numbers::new(alloc, chart.pairs())?;
    met.add(start)?;
    let mut next = 0;
    while next < met.count() {
        let n = met.number(next);
        add_called(forest, chart, n, &mut met)?;
        next += 1;
    }
    Ok(met.into_list())
}

// Adds the pairs that the nodes of a pair call.
fn add_called(forest: &Forest, chart: &Chart, n: u32, met: &mut Numbers) -> Result<(), Memory>
    ensures { let summary = slice_get chart.now.summaries n in
        let nodes = nodes_size (nodes_of_summary forest.now summary) in
        OnOk result (AreCallsAdded forest.now chart.now n nodes met.old met.new) }
{
    for node in 0..node_count(forest, chart, n) {
        if let Some(callee) = chart.call(n, node) {
            met.add(callee)?;
        }
    }
    Ok(())
}

// How many nodes the template of a pair has; none where there is no such pair.
fn node_count(forest: &Forest, chart: &Chart, n: u32) -> u32
    ensures { result ≡ nodes_size (nodes_of_summary forest.now (slice_get chart.now.summaries n)) }
{
    if n as usize >= chart.pairs() {
        return 0;
    }
    let (template, _) = chart.pair(n);
    if template as usize >= forest.count() {
        return 0;
    }
    forest.tree(template).count()
}
