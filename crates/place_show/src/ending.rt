ghost use Rattle.std.specs.Prelude.{◌≡◌};
ghost use Rattle.place_core.specs.declared.code.Code.TheVariants as code;
ghost use Rattle.place_show.specs.Answers.{IfFound, ShowsOn};
ghost use Rattle.place_show.specs.Ends.{is_text_place, last_number, last_node_of};
ghost use Rattle.place_show.specs.Made.{IsMadeOne};
ghost use Rattle.place_show.specs.Showings.{template_end};
ghost use Rattle.tpl_tree.specs.Forests.{tree_at};

use crate::making::{Mark, made_one};
use crate::showing::Showing;
use page_io::Memory;
use place_core::{Code, Place};
use place_trace::PathReplay;
use std::alloc::Global;
use tpl_paths::Point;
use tpl_tree::{Forest, Tree};

/// That a path ends its root in another place than text, if it does. Fails only if allocation fails.
pub fn end_error(
    alloc: Global,
    forest: &Forest,
    replay: &PathReplay,
) -> Result<Option<Showing>, Memory>
    ensures { ShowsOn forest.now replay.now result }
{
    if replay.template != replay.root || replay.open_calls.len() > 0 {
        return Ok(None);
    }
    if is_text(replay.place) {
        return Ok(None);
    }
    match replay.point {
        Point::Finish => ended(alloc, forest, replay),
        _ => Ok(None),
    }
}

fn is_text(place: Place) -> bool
    ensures { result ≡ is_text_place place }
{
    match place {
        Place::Text => true,
        _ => false,
    }
}

fn ended(alloc: Global, forest: &Forest, replay: &PathReplay) -> Result<Option<Showing>, Memory>
    ensures { let w = replay.now in
        let root = tree_at forest.now w.root in
        let is_made = IsMadeOne forest.now w code.EndContext (template_end root) (last_node_of root) 0 in
        IfFound (is_made w.place) result }
{
    if replay.root as usize >= forest.count() {
        return Ok(None);
    }
    let tree = forest.tree(replay.root);
    let mark = Mark {
        code: Code::EndContext,
        line: tree.end_line(),
        node: last_node(tree),
        byte: 0,
    };
    made_one(alloc, forest, replay, mark, replay.place)
}

// The number of the last node at top level; 0 where there is none.
fn last_node(tree: &Tree) -> u32
    ensures { result ≡ last_number tree.now.nodes }
{
    let mut last = 0;
    let mut next = tree.first();
    while let Some(node) = next {
        last = node;
        next = tree.next(node);
    }
    last
}
