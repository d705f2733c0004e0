ghost use Rattle.place_show.specs.Answers.{IfFound, ShowsOnBoth};
ghost use Rattle.place_show.specs.Made.{IsMadeTwo};
ghost use Rattle.place_show.specs.Showings.{line_of_node};

use crate::making::{Mark, made_two};
use crate::seen::line_of;
use crate::showing::Showing;
use page_io::Memory;
use place_core::{Code, join};
use place_trace::PathReplay;
use std::alloc::Global;
use tpl_paths::Point;
use tpl_tree::Forest;

/// That the places of two paths do not join where these meet at the head of a range or after the parts of a control, if they do not. Fails only if allocation fails.
pub fn join_error(
    alloc: Global,
    forest: &Forest,
    replay: &PathReplay,
    other: &PathReplay,
) -> Result<Option<Showing>, Memory>
    ensures { ShowsOnBoth forest.now replay.now other.now result }
{
    if !replay.stands_with(other) || join(replay.place, other.place).is_some() {
        return Ok(None);
    }
    match replay.point {
        Point::Head(node) => conflict(alloc, forest, replay, other, Code::RangeLoopReentry, node),
        Point::Past(node) => conflict(alloc, forest, replay, other, Code::BranchEnd, node),
        _ => Ok(None),
    }
}

fn conflict(
    alloc: Global,
    forest: &Forest,
    replay: &PathReplay,
    other: &PathReplay,
    code: Code,
    node: u32,
) -> Result<Option<Showing>, Memory>
    ensures { let w = replay.now in
        let v = other.now in
        let line = line_of_node forest.now w.template node in
        IfFound (IsMadeTwo forest.now w v code line node 0 w.place v.place) result }
{
    let mark = Mark {
        code,
        line: line_of(forest, replay.template, node),
        node,
        byte: 0,
    };
    made_two(
        alloc,
        forest,
        replay,
        other,
        mark,
        replay.place,
        other.place,
    )
}
