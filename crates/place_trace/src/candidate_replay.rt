ghost use Rattle.std.specs.Prelude.{IfOk, IfSome, OnOk};
ghost use Rattle.place_trace.specs.Replays.{IsPathReplay};
ghost use Rattle.place_trace.specs.UnchosenWays.{AreUnchosenWays};

use crate::candidate::CandidateStep;
use crate::replay::PathReplay;
use crate::unchosen_ways::UnchosenWays;
use page_io::Memory;
use place_flow::Flows;
use std::alloc::Global;

// Goes back from each template at whose end a path stands.
fn return_from_ends(flows: &Flows, replay: &mut PathReplay)
    ensures { IsPathReplay flows.now replay.old → IsPathReplay flows.now replay.new }
{
    for _turn in 0..usize::MAX {
        if !replay.go_back(flows) {
            return;
        }
    }
}

// Takes a step. Reports whether it went.
fn take(
    alloc: Global,
    flows: &Flows,
    ways: &mut UnchosenWays,
    replay: &mut PathReplay,
    step: CandidateStep,
) -> Result<bool, Memory>
    ensures ways { AreUnchosenWays flows.now ways.old
        → OnOk result (AreUnchosenWays flows.now ways.new) }
    ensures path { AreUnchosenWays flows.now ways.old → IsPathReplay flows.now replay.old
        → OnOk result (IsPathReplay flows.now replay.new) }
{
    match step {
        CandidateStep::Along(number) => replay.go_along(flows, number as usize),
        CandidateStep::To(point) => replay.go_to(alloc, flows, ways, point),
    }
}

/// The path of a root by steps, as a candidate has them, if that is one. A stretch of a template on which nothing is chosen is gone once for
/// each place in which it begins, however often the path is to go along it. Fails only if allocation fails.
pub fn replayed(
    alloc: Global,
    flows: &Flows,
    root: u32,
    steps: &[CandidateStep],
) -> Result<Option<PathReplay>, Memory>
    ensures { IfOk result (λ replay. IfSome replay (IsPathReplay flows.now)) }
{
    let Some(mut replay) = PathReplay::new(alloc, flows, root) else {
        return Ok(None);
    };
    let mut ways = UnchosenWays::new(alloc, flows.forest().count())?;
    for step in steps {
        return_from_ends(flows, &mut replay);
        if !take(alloc, flows, &mut ways, &mut replay, *step)? {
            return Ok(None);
        }
    }
    return_from_ends(flows, &mut replay);
    Ok(Some(replay))
}
