ghost use Rattle.std.specs.Prelude.{◌<◌, length};

use crate::steps::{put_chain, put_place};
use case_table::CaseOutput;
use place_core::Place;
use place_infer::Chart;
use tpl_tree::{Forest, NodeKind};

/// Writes each pair of a chart: its template, the context in which that is entered, its nodes, and the place at its end.
pub fn put_chart(out: &mut CaseOutput, forest: &Forest, chart: &Chart) {
    for n in 0..chart.pairs() {
        if n > 0 {
            out.put(" / ");
        }
        put_pair(out, forest, chart, n as u32);
    }
}

fn put_pair(out: &mut CaseOutput, forest: &Forest, chart: &Chart, n: u32)
    requires { n < length chart.now.summaries }
{
    let (template, entry) = chart.pair(n);
    if template as usize >= forest.count() {
        return;
    }
    out.put(forest.name(template));
    out.put(" in ");
    put_place(out, entry);
    out.put(":");
    let tree = forest.tree(template);
    for node in 0..tree.count() {
        out.put(if node == 0 { " " } else { ", " });
        out.put_number(Some(node));
        put_point(out, " ", chart.place(n, node));
        put_more(out, chart, n, node, tree.kind(node));
    }
    put_end(out, chart.after(n));
}

// Writes what a node has besides its place: a range the place at its head, a hole its chain, and a call the number of its
// pair.
fn put_more(out: &mut CaseOutput, chart: &Chart, n: u32, node: u32, kind: &NodeKind) {
    match kind {
        NodeKind::Range(_, _, _) => put_point(out, " head ", chart.head(n, node)),
        NodeKind::Action(_) => {
            out.put(" chain ");
            match chart.chain(n, node) {
                Some(chain) => put_chain(out, chain),
                None => out.put("-"),
            }
        }
        NodeKind::Template(_, _) => {
            out.put(" calls ");
            out.put_number(chart.call(n, node));
        }
        _ => {}
    }
}

// Writes a word and a place, or `-` where no path comes.
fn put_point(out: &mut CaseOutput, word: &str, place: Option<Place>) {
    out.put(word);
    match place {
        Some(place) => put_place(out, place),
        None => out.put("-"),
    }
}

// Writes the place at a template's end, or that no path comes there.
fn put_end(out: &mut CaseOutput, place: Option<Place>) {
    out.put(" > ");
    match place {
        Some(place) => put_place(out, place),
        None => out.put("never"),
    }
}
