ghost use Rattle.std.specs.Prelude.{◌≡◌, ◌<◌, ◌^◌, IfSome, IsTrue, Some, length};
ghost use Rattle.place_show.specs.Answers.{IfFound, ShowsOnBoth};
ghost use Rattle.place_show.specs.AtNodes.{ShowsTwoAt};
ghost use Rattle.place_show.specs.Made.{IsMadeTwo};
ghost use Rattle.place_show.specs.Taking.{AreRefusedTogether, TakesHoleAt};
ghost use Rattle.tpl_tree.specs.Trees.{head_kind, head_line, nodes_from, nodes_size};
ghost use Rattle.tpl_tree.specs.declared.node_kind.NodeKind.TheVariants as kind;
ghost use Rattle.html_step.specs.Holes as holes;

use crate::beginnings::{shown_places, takes};
use crate::making::{Mark, made_two, text_mark};
use crate::showing::Showing;
use html_step::{after_hole, after_text};
use page_io::{Memory, Text};
use place_core::{Code, Place, has_apart, join};
use place_trace::PathReplay;
use std::alloc::Global;
use tpl_paths::Point;
use tpl_tree::{Forest, NodeKind, Tree};

/// That a text or a hole is refused on two paths together, where these meet before it, if it is: a text at a byte that is refused on
/// neither of them alone, nor is one before it, also where they are apart in the beginning of a URL before it; a hole that is refused on neither of them alone. Fails only if allocation fails.
pub fn node_clash(
    alloc: Global,
    forest: &Forest,
    replay: &PathReplay,
    other: &PathReplay,
) -> Result<Option<Showing>, Memory>
    ensures { ShowsOnBoth forest.now replay.now other.now result }
{
    if !replay.stands_with(other) || replay.template as usize >= forest.count() {
        return Ok(None);
    }
    match replay.point {
        Point::Before(node) => in_tree(
            alloc,
            forest,
            forest.tree(replay.template),
            replay,
            other,
            node,
        ),
        _ => Ok(None),
    }
}

// Likewise, in the tree of their template.
fn in_tree(
    alloc: Global,
    forest: &Forest,
    tree: &Tree,
    replay: &PathReplay,
    other: &PathReplay,
    node: u32,
) -> Result<Option<Showing>, Memory>
    ensures { let is_shown = ShowsTwoAt forest.now replay.now other.now tree.now.nodes node in
        IfFound is_shown result }
{
    if node >= tree.count() {
        return Ok(None);
    }
    match tree.kind(node) {
        NodeKind::Text(text) => clash(alloc, forest, tree, replay, other, node, text),
        NodeKind::Action(_) => match refused_together(replay.place, other.place) {
            Some(code) => at_both(alloc, forest, tree, replay, other, code, node),
            None => Ok(None),
        },
        _ => Ok(None),
    }
}

// Likewise, at a text of it.
fn clash(
    alloc: Global,
    forest: &Forest,
    tree: &Tree,
    replay: &PathReplay,
    other: &PathReplay,
    node: u32,
    text: &Text,
) -> Result<Option<Showing>, Memory>
    requires node { node < nodes_size tree.now.nodes }
    requires text { Some (kind.Text text.now) ≡ head_kind (nodes_from tree.now.nodes node) }
    requires length { length text.now < 2 ^ 32 }
    ensures { let is_shown = ShowsTwoAt forest.now replay.now other.now tree.now.nodes node in
        IfFound is_shown result }
{
    let bytes = text.as_str();
    if has_apart(replay.place) {
        return Ok(None);
    }
    if has_apart(other.place) {
        return Ok(None);
    }
    let Some(both) = join(replay.place, other.place) else {
        return Ok(None);
    };
    match after_text(both, bytes) {
        Err(refused) => {
            if !takes(replay.place, bytes, refused.at) {
                return Ok(None);
            }
            if !takes(other.place, bytes, refused.at) {
                return Ok(None);
            }
            let mark = text_mark(tree, node, text, refused);
            match shown_places(replay.place, other.place, both, bytes, refused.at) {
                Some((at, other_at)) => made_two(alloc, forest, replay, other, mark, at, other_at),
                None => Ok(None),
            }
        }
        Ok(_) => Ok(None),
    }
}

// An error of a hole, at the places of both paths.
fn at_both(
    alloc: Global,
    forest: &Forest,
    tree: &Tree,
    replay: &PathReplay,
    other: &PathReplay,
    code: Code,
    node: u32,
) -> Result<Option<Showing>, Memory>
    requires { node < nodes_size tree.now.nodes }
    ensures { let w = replay.now in
        let v = other.now in
        let line = head_line (nodes_from tree.now.nodes node) in
        IfFound (IsMadeTwo forest.now w v code line node 0 w.place v.place) result }
{
    let mark = Mark {
        code,
        line: tree.line(node),
        node,
        byte: 0,
    };
    made_two(
        alloc,
        forest,
        replay,
        other,
        mark,
        replay.place,
        other.place,
    )
}

// By which code a hole is refused on two paths together, by their places.
fn refused_together(one: Place, other: Place) -> Option<Code>
    ensures { IfSome result (AreRefusedTogether one other) }
{
    match join(one, other) {
        Some(both) => {
            if !takes_hole(one) || !takes_hole(other) {
                return None;
            }
            match after_hole(both) {
                Err(code) => Some(code),
                Ok(_) => None,
            }
        }
        None => None,
    }
}

// Whether a place takes a hole.
fn takes_hole(place: Place) -> bool
    ensures { IsTrue result → TakesHoleAt (holes.after_hole place) }
{
    match after_hole(place) {
        Ok(_) => true,
        Err(_) => false,
    }
}
