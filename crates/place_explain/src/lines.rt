ghost use Rattle.std.specs.Prelude.{◌≡◌, ◌<◌, ◌++◌, OnOk};
ghost use Rattle.place_explain.specs.PairText.{done_text, end_text, pair_head_text, hole_text, holes_text};
ghost use Rattle.place_explain.specs.PairText.{line_text, pair_node_text, pair_text};
ghost use Rattle.tpl_tree.specs.Trees.{nodes_size};

use crate::chains::push_chain;
use html_step::print_place;
use page_datum::legible;
use page_io::{Memory, Text};
use place_core::{Chain, Place};
use place_infer::Chart;
use std::alloc::Global;
use tpl_tree::{Forest, NodeKind, Tree};

/// Appends what is said of a pair: its places, and what is done in its holes. Nothing where there is no such pair. Fails only if
/// allocation fails.
pub fn push_pair(
    alloc: Global,
    forest: &Forest,
    chart: &Chart,
    out: &mut Text,
    n: u32,
) -> Result<(), Memory>
    ensures { OnOk result (out.new ≡ out.old ++ pair_text forest.now chart.now n) }
{
    if n as usize >= chart.pairs() {
        return Ok(());
    }
    let (template, entry) = chart.pair(n);
    if template as usize >= forest.count() {
        return Ok(());
    }
    push_head(alloc, out, forest.name(template), entry, chart.after(n))?;
    push_holes(alloc, chart, out, n, forest.tree(template))
}

// The line of a pair.
fn push_head(
    alloc: Global,
    out: &mut Text,
    name: &str,
    entry: Place,
    end: Option<Place>,
) -> Result<(), Memory>
    ensures { OnOk result (out.new ≡ out.old ++ pair_head_text name.now entry end) }
{
    out.push_str("template \"")?;
    out.push_str(legible(alloc, name)?.as_str())?;
    out.push_str("\" at ")?;
    out.push_str(print_place(alloc, entry)?.as_str())?;
    out.push_str(" -> ")?;
    push_end(alloc, out, end)?;
    out.push_str("\n")
}

// The place at a template's end.
fn push_end(alloc: Global, out: &mut Text, end: Option<Place>) -> Result<(), Memory>
    ensures { OnOk result (out.new ≡ out.old ++ end_text end) }
{
    match end {
        Some(place) => out.push_str(print_place(alloc, place)?.as_str()),
        None => out.push_str("never"),
    }
}

// The lines of the holes of a pair, whose template has this tree.
fn push_holes(
    alloc: Global,
    chart: &Chart,
    out: &mut Text,
    n: u32,
    tree: &Tree,
) -> Result<(), Memory>
    ensures { OnOk result (out.new ≡ out.old ++ holes_text chart.now n tree.now.nodes) }
{
    for node in 0..tree.count() {
        push_node(alloc, chart, out, n, tree, node)?;
    }
    Ok(())
}

// The line of a node that is a hole.
fn push_node(
    alloc: Global,
    chart: &Chart,
    out: &mut Text,
    n: u32,
    tree: &Tree,
    node: u32,
) -> Result<(), Memory>
    requires { node < nodes_size tree.now.nodes }
    ensures { OnOk result (out.new ≡ out.old ++ pair_node_text chart.now n tree.now.nodes node) }
{
    match tree.kind(node) {
        NodeKind::Action(_) => push_hole(
            alloc,
            out,
            tree.line(node),
            chart.place(n, node),
            chart.chain(n, node),
        ),
        _ => Ok(()),
    }
}

// The line of a hole, where a path comes to the place before it.
fn push_hole(
    alloc: Global,
    out: &mut Text,
    line: u32,
    place: Option<Place>,
    chain: Option<Chain>,
) -> Result<(), Memory>
    ensures { OnOk result (out.new ≡ out.old ++ hole_text line place chain) }
{
    match place {
        Some(_) => push_line(alloc, out, line, chain),
        None => Ok(()),
    }
}

fn push_line(alloc: Global, out: &mut Text, line: u32, chain: Option<Chain>) -> Result<(), Memory>
    ensures { OnOk result (out.new ≡ out.old ++ line_text line chain) }
{
    let number = format!(in alloc; "  {line} ")?;
    out.push_str(number.as_str())?;
    push_done(out, chain)?;
    out.push_str("\n")
}

// What is done to the values of a hole.
fn push_done(out: &mut Text, chain: Option<Chain>) -> Result<(), Memory>
    ensures { OnOk result (out.new ≡ out.old ++ done_text chain) }
{
    let Some(chain) = chain else {
        return Ok(());
    };
    push_chain(out, chain)
}
