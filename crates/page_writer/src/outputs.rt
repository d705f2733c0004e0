ghost use Rattle.std.specs.Prelude.{◌≡◌, ◌<◌, ℕ, IfOk, Some, length, map};
ghost use Rattle.std.specs.Prelude.{slice_get, slice_index_or, ◌^◌};
ghost use Rattle.page_writer.specs.Outputs.{AreOutputs, output_of};
ghost use Rattle.page_writer.specs.declared.output.Output.TheVariants.{Nothing};
ghost use Rattle.place_flow.specs.Flows.{nodes_at};
ghost use Rattle.place_chart.specs.declared.summary.Summary.{Summary};
ghost use Rattle.tpl_tree.specs.Forests.{ForestData};
ghost use Rattle.tpl_tree.specs.Trees.{nodes_size};
ghost use Rattle.page_writer.specs.Outputs as spec;

use crate::output::Output;
use page_io::{Memory, Text};
use place_core::{Chain, Place};
use place_infer::Chart;
use std::alloc::Global;
use text_norm::write_text;
use tpl_tree::{Forest, NodeKind, Tree};

// A value, by its chain.
fn by_chain(chain: Option<Chain>) -> Output
    ensures { result ≡ spec.by_chain chain }
{
    match chain {
        Some(chain) => Output::Value(chain),
        None => Output::Nothing,
    }
}

// A call, by the pair that it enters.
fn by_call(call: Option<u32>) -> Output
    ensures { result ≡ spec.by_call call }
{
    match call {
        Some(pair) => Output::Call(pair),
        None => Output::Nothing,
    }
}

// A text, by the place before it.
fn by_place(alloc: Global, place: Option<Place>, text: &Text) -> Result<Output, Memory>
    requires { length text.now < 2 ^ 32 }
    ensures { IfOk result (λ output. output ≡ spec.by_place place text.now) }
{
    match place {
        Some(place) => Ok(Output::Text(write_text(alloc, place, text.as_str())?)),
        None => Ok(Output::Nothing),
    }
}

// A node of a pair, by what the chart has for it.
fn pair_output(
    alloc: Global,
    chart: &Chart,
    tree: &Tree,
    n: u32,
    node: u32,
) -> Result<Output, Memory>
    requires { node < nodes_size tree.now.nodes }
    ensures { IfOk result (λ output. (forest : ForestData) (summary : Summary)
        → slice_get chart.now.summaries n ≡ Some summary
        → nodes_at forest summary.template ≡ tree.now.nodes
        → output ≡ output_of forest chart.now summary n node) }
{
    match tree.kind(node) {
        NodeKind::Text(text) => by_place(alloc, chart.place(n, node), text),
        NodeKind::Action(_) => Ok(by_chain(chart.chain(n, node))),
        NodeKind::Template(_, _) => Ok(by_call(chart.call(n, node))),
        _ => Ok(Output::Nothing),
    }
}

// The nodes of a pair, of a template with this tree.
fn outputs_of_tree(alloc: Global, chart: &Chart, tree: &Tree, n: u32) -> Result<Vec<Output>, Memory>
    ensures { IfOk result (λ outputs. (forest : ForestData) (summary : Summary)
        → slice_get chart.now.summaries n ≡ Some summary
        → nodes_at forest summary.template ≡ tree.now.nodes
        → (node : ℕ)
        → slice_index_or outputs.items node Nothing ≡ output_of forest chart.now summary n node) }
{
    let mut outputs = Vec::with_capacity(alloc, tree.count() as usize)?;
    for node in 0..tree.count() {
        outputs.push(pair_output(alloc, chart, tree, n, node)?)?;
    }
    Ok(outputs)
}

// The nodes of a pair.
fn outputs_of_pair(
    alloc: Global,
    forest: &Forest,
    chart: &Chart,
    n: u32,
) -> Result<Vec<Output>, Memory>
    requires { n < length chart.now.summaries }
    ensures { IfOk result (λ outputs. (summary : Summary)
        → slice_get chart.now.summaries n ≡ Some summary
        → (node : ℕ)
        → slice_index_or outputs.items node Nothing
        ≡ output_of forest.now chart.now summary n node) }
{
    let (template, _) = chart.pair(n);
    if template as usize >= forest.count() {
        return Ok(Vec::new(alloc));
    }
    outputs_of_tree(alloc, chart, forest.tree(template), n)
}

/// What a page gets at each node of each pair of a chart: by the numbers of the pairs, and in each by those of the nodes. Each text is
/// written once for each pair. Fails only if allocation fails.
pub fn outputs_of(alloc: Global, forest: &Forest, chart: &Chart) -> Result<Vec<Vec<Output>>, Memory>
    ensures { IfOk result (λ outputs.
        AreOutputs forest.now chart.now (map (λ summary. summary.items) outputs.items)) }
{
    let mut outputs = Vec::new(alloc);
    for n in 0..chart.pairs() {
        outputs.push(outputs_of_pair(alloc, forest, chart, n as u32)?)?;
    }
    Ok(outputs)
}
