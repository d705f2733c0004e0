ghost use Rattle.std.specs.Prelude.{◌≡◌, ◌<◌, ◌^◌, Some, length};
ghost use Rattle.place_show.specs.Answers.{IfFound, ShowsOn};
ghost use Rattle.place_show.specs.AtNodes.{ShowsOneAt};
ghost use Rattle.place_show.specs.Made.{IsMadeOne};
ghost use Rattle.tpl_tree.specs.Trees.{head_kind, head_line, nodes_from, nodes_size};
ghost use Rattle.tpl_tree.specs.declared.node_kind.NodeKind.TheVariants as kind;

use crate::making::{Mark, made_one, text_mark};
use crate::showing::Showing;
use html_step::{after_hole, after_text};
use page_io::{Memory, Text};
use place_core::Code;
use place_flow::{escaper_use, may_use};
use place_trace::PathReplay;
use std::alloc::Global;
use tpl_paths::Point;
use tpl_tree::{Forest, NodeKind, Tree};

/// The error that a path meets at the node before which it stands, if it meets one there: a text or a hole is refused, a predefined escaper
/// may not stand there, or the template that is called is not there. Fails only if allocation fails.
pub fn node_error(
    alloc: Global,
    forest: &Forest,
    replay: &PathReplay,
) -> Result<Option<Showing>, Memory>
    ensures { ShowsOn forest.now replay.now result }
{
    if replay.template as usize >= forest.count() {
        return Ok(None);
    }
    match replay.point {
        Point::Before(node) => in_tree(alloc, forest, forest.tree(replay.template), replay, node),
        _ => Ok(None),
    }
}

// Likewise, in the tree of its template.
fn in_tree(
    alloc: Global,
    forest: &Forest,
    tree: &Tree,
    replay: &PathReplay,
    node: u32,
) -> Result<Option<Showing>, Memory>
    ensures { IfFound (ShowsOneAt forest.now replay.now tree.now.nodes node) result }
{
    if node >= tree.count() {
        return Ok(None);
    }
    let kind = tree.kind(node);
    if !may_use(replay.place, escaper_use(kind)) {
        return at_node(alloc, forest, tree, replay, Code::PredefinedEscaper, node);
    }
    match kind {
        NodeKind::Text(text) => text_error(alloc, forest, tree, replay, node, text),
        NodeKind::Action(_) => match after_hole(replay.place) {
            Err(code) => at_node(alloc, forest, tree, replay, code, node),
            Ok(_) => Ok(None),
        },
        NodeKind::Template(name, _) => match forest.find(name.get().as_str()) {
            None => at_node(alloc, forest, tree, replay, Code::NoSuchTemplate, node),
            Some(_) => Ok(None),
        },
        _ => Ok(None),
    }
}

// An error of a node, at the path's place.
fn at_node(
    alloc: Global,
    forest: &Forest,
    tree: &Tree,
    replay: &PathReplay,
    code: Code,
    node: u32,
) -> Result<Option<Showing>, Memory>
    requires { node < nodes_size tree.now.nodes }
    ensures { let w = replay.now in
        let line = head_line (nodes_from tree.now.nodes node) in
        IfFound (IsMadeOne forest.now w code line node 0 w.place) result }
{
    let mark = Mark {
        code,
        line: tree.line(node),
        node,
        byte: 0,
    };
    made_one(alloc, forest, replay, mark, replay.place)
}

// A text that the path's place refuses.
fn text_error(
    alloc: Global,
    forest: &Forest,
    tree: &Tree,
    replay: &PathReplay,
    node: u32,
    text: &Text,
) -> Result<Option<Showing>, Memory>
    requires node { node < nodes_size tree.now.nodes }
    requires text { Some (kind.Text text.now) ≡ head_kind (nodes_from tree.now.nodes node) }
    requires length { length text.now < 2 ^ 32 }
    ensures { IfFound (ShowsOneAt forest.now replay.now tree.now.nodes node) result }
{
    match after_text(replay.place, text.as_str()) {
        Err(refused) => {
            let mark = text_mark(tree, node, text, refused);
            made_one(alloc, forest, replay, mark, refused.before)
        }
        Ok(_) => Ok(None),
    }
}
