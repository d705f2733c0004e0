ghost use Rattle.std.specs.Prelude.{◌≡◌, ◌<◌, ◌≤◌, IfOk, IfSome, Some, length};
ghost use Rattle.place_show.specs.Answers.{IfFound};
ghost use Rattle.place_show.specs.Made.{IsShowingMade, IsMadeOne, IsMadeTwo, IsSeenAt};
ghost use Rattle.tpl_tree.specs.Trees.{head_kind, head_line, head_seams, nodes_from, nodes_size, text_line};
ghost use Rattle.tpl_tree.specs.declared.node_kind.NodeKind.TheVariants as kind;

use crate::ordering::in_order;
use crate::seen::{are_named, call_nodes, name_of, seen_path};
use crate::showing::{Seen, Showing};
use page_io::{List, Memory, Text};
use place_core::{Code, Place, StepErr};
use place_trace::PathReplay;
use std::alloc::Global;
use tpl_tree::{Forest, Tree};

/// What an error is, and where it stands.
#[derive(Clone, Copy, Debug)]
pub(crate) struct Mark {
    pub code: Code,
    pub line: u32,
    pub node: u32,
    pub byte: u32,
}

// Where a text is refused.
pub(crate) fn text_mark(tree: &Tree, node: u32, text: &Text, refused: StepErr<Place>) -> Mark
    requires node { node < nodes_size tree.now.nodes }
    requires text { Some (kind.Text text.now) ≡ head_kind (nodes_from tree.now.nodes node) }
    requires within { refused.at ≤ length text.now }
    ensures code { result.code ≡ refused.code }
    ensures line { let nodes = nodes_from tree.now.nodes node in
        result.line ≡ text_line text.now (head_line nodes) (head_seams nodes) refused.at }
    ensures node { result.node ≡ node }
    ensures byte { result.byte ≡ refused.at }
{
    Mark {
        code: refused.code,
        line: tree.line_at(node, refused.at),
        node,
        byte: refused.at,
    }
}

// A path as it is shown, at a place. None where it chose in a template that the forest lacks.
fn seen_at(
    alloc: Global,
    forest: &Forest,
    replay: &PathReplay,
    at: Place,
) -> Result<Option<Seen>, Memory>
    ensures { IfOk result (λ found. IfSome found (IsSeenAt forest.now replay.now at)) }
{
    if !are_named(forest, &replay.chosen) {
        return Ok(None);
    }
    Ok(Some(Seen {
        path: seen_path(alloc, forest, &replay.chosen)?,
        at,
    }))
}

// A showing of some paths, which stand where one does.
fn made(
    alloc: Global,
    forest: &Forest,
    replay: &PathReplay,
    mark: Mark,
    paths: List<Seen>,
) -> Result<Showing, Memory>
    ensures made { let w = replay.now in
        IfOk result (IsShowingMade forest.now w mark.code mark.line mark.node mark.byte) }
    ensures paths { IfOk result (λ sh. sh.paths ≡ paths) }
{
    Ok(Showing {
        code: mark.code,
        template: name_of(alloc, forest, replay.template)?,
        line: mark.line,
        root: name_of(alloc, forest, replay.root)?,
        calls: call_nodes(alloc, &replay.open_calls)?,
        node: mark.node,
        byte: mark.byte,
        paths,
    })
}

/// A showing of one path. None where it chose in a template that the forest lacks. Fails only if allocation fails.
pub(crate) fn made_one(
    alloc: Global,
    forest: &Forest,
    replay: &PathReplay,
    mark: Mark,
    at: Place,
) -> Result<Option<Showing>, Memory>
    ensures { let w = replay.now in
        IfFound (IsMadeOne forest.now w mark.code mark.line mark.node mark.byte at) result }
{
    let Some(seen) = seen_at(alloc, forest, replay, at)? else {
        return Ok(None);
    };
    let mut paths = List::new(alloc);
    paths.push(seen)?;
    Ok(Some(made(alloc, forest, replay, mark, paths)?))
}

/// A showing of two paths, the one first that comes first as they are printed. None where one chose in a template that the forest lacks. Fails only if allocation fails.
pub(crate) fn made_two(
    alloc: Global,
    forest: &Forest,
    replay: &PathReplay,
    other: &PathReplay,
    mark: Mark,
    at: Place,
    other_at: Place,
) -> Result<Option<Showing>, Memory>
    ensures { let w = replay.now in
        let v = other.now in
        let is_made = IsMadeTwo forest.now w v mark.code mark.line mark.node mark.byte in
        IfFound (is_made at other_at) result }
{
    let Some(seen) = seen_at(alloc, forest, replay, at)? else {
        return Ok(None);
    };
    let Some(other_seen) = seen_at(alloc, forest, other, other_at)? else {
        return Ok(None);
    };
    let paths = in_order(alloc, seen, other_seen)?;
    Ok(Some(made(alloc, forest, replay, mark, paths)?))
}
