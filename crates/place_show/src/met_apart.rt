ghost use Rattle.std.specs.Prelude.{◌≡◌, ◌<◌, ◌^◌, Some, length};
ghost use Rattle.place_show.specs.Answers.{IfFound};
ghost use Rattle.place_show.specs.Conflicts.{ShowsIn};
ghost use Rattle.place_show.specs.Together.{ShowsMet, ShowsMetAt, ShowsWhereMet};
ghost use Rattle.tpl_tree.specs.Trees.{head_kind, nodes_from, nodes_size};
ghost use Rattle.tpl_tree.specs.declared.node_kind.NodeKind.TheVariants as kind;

use crate::beginnings::{common_colon, last_places};
use crate::making::{made_two, text_mark};
use crate::passing::latest;
use crate::showing::Showing;
use crate::together::go_together;
use page_io::{Memory, Text};
use place_core::Place;
use place_flow::Flows;
use place_trace::{CandidateStep, MetApart, PathReplay, replayed};
use std::alloc::Global;
use tpl_paths::Point;
use tpl_tree::{Forest, NodeKind, Tree};

/// That a text is refused on two paths which met apart in the beginning of a URL and then went one way to the text, as candidates say,
/// if it is. Fails only if allocation fails.
pub fn met_apart_error(
    alloc: Global,
    forest: &Forest,
    flows: &Flows,
    candidates: &MetApart,
) -> Result<Option<Showing>, Memory>
    ensures { ShowsIn flows.now forest.now result }
{
    let (one, other) = (&candidates.one, &candidates.other);
    let one = replayed(alloc, flows, one.root, one.steps.as_slice())?;
    let other = replayed(alloc, flows, other.root, other.steps.as_slice())?;
    match (one, other) {
        (Some(one), Some(other)) => {
            where_met(
                alloc,
                forest,
                flows,
                candidates.common.as_slice(),
                one,
                other,
            )
        }
        _ => Ok(None),
    }
}

// Likewise, on two paths which stand where they met, and the steps that both take from there.
fn where_met(
    alloc: Global,
    forest: &Forest,
    flows: &Flows,
    common: &[CandidateStep],
    one: PathReplay,
    other: PathReplay,
) -> Result<Option<Showing>, Memory>
    ensures { ShowsWhereMet flows.now forest.now one other result }
{
    if !one.stands_with(&other) {
        return Ok(None);
    }
    let (mut one, mut other) = (one, other);
    match go_together(alloc, flows, common, &mut one, &mut other)? {
        Some(last) => refused_on_both(alloc, forest, &one, &other, last),
        None => Ok(None),
    }
}

// Likewise, on two paths which stand before the text, and the places of both at the last point before it at which they were apart.
fn refused_on_both(
    alloc: Global,
    forest: &Forest,
    one: &PathReplay,
    other: &PathReplay,
    last: Option<(Place, Place)>,
) -> Result<Option<Showing>, Memory>
    ensures { IfFound (ShowsMet forest.now one.now other.now last) result }
{
    if !one.stands_with(other) || one.template as usize >= forest.count() {
        return Ok(None);
    }
    match one.point {
        Point::Before(node) => in_tree(
            alloc,
            forest,
            forest.tree(one.template),
            one,
            other,
            node,
            last,
        ),
        _ => Ok(None),
    }
}

// Likewise, in the tree of their template.
fn in_tree(
    alloc: Global,
    forest: &Forest,
    tree: &Tree,
    one: &PathReplay,
    other: &PathReplay,
    node: u32,
    last: Option<(Place, Place)>,
) -> Result<Option<Showing>, Memory>
    ensures { let shows = ShowsMetAt forest.now one.now other.now tree.now.nodes node in
        IfFound (shows last) result }
{
    if node >= tree.count() {
        return Ok(None);
    }
    match tree.kind(node) {
        NodeKind::Text(text) => at_text(alloc, forest, tree, one, other, node, text, last),
        _ => Ok(None),
    }
}

// Likewise, at a text of it.
fn at_text(
    alloc: Global,
    forest: &Forest,
    tree: &Tree,
    one: &PathReplay,
    other: &PathReplay,
    node: u32,
    text: &Text,
    last: Option<(Place, Place)>,
) -> Result<Option<Showing>, Memory>
    requires node { node < nodes_size tree.now.nodes }
    requires text { Some (kind.Text text.now) ≡ head_kind (nodes_from tree.now.nodes node) }
    requires length { length text.now < 2 ^ 32 }
    ensures { let shows = ShowsMetAt forest.now one.now other.now tree.now.nodes node in
        IfFound (shows last) result }
{
    let bytes = text.as_str();
    let Some(refused) = common_colon(one.place, other.place, bytes) else {
        return Ok(None);
    };
    let mark = text_mark(tree, node, text, refused);
    let found = last_places(one.place, other.place, bytes, refused.at);
    match latest(last, found) {
        Some((at, other_at)) => made_two(alloc, forest, one, other, mark, at, other_at),
        None => Ok(None),
    }
}
