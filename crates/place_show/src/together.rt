ghost use Rattle.std.specs.Prelude.{◌≡◌, IfOk, IfSome, IsTrue, OnOk};
ghost use Rattle.place_show.specs.Together.{BothWent, GoBoth, GoOnTogether, StepTogether};
ghost use Rattle.place_show.specs.WaysTogether.{AreWaysTogether};
ghost use Rattle.place_trace.specs.Replays.{replay_data};
ghost use Rattle.place_trace.specs.declared.replay.PathReplay.{PathReplay as SpecReplay};

use crate::passing::{latest, passed_edge};
use crate::ways_together::WaysTogether;
use page_io::Memory;
use place_core::{Place, spells_apart};
use place_flow::Flows;
use place_trace::{CandidateStep, PathReplay, same_point};
use std::alloc::Global;
use tpl_paths::Point;

fn are_alike(one: bool, other: bool) -> bool
    ensures { IsTrue result → one ≡ other }
{
    if one { other } else { !other }
}

// Goes back on both paths from each template at whose end they stand. Reports whether both went back alike.
fn back_together(flows: &Flows, one: &mut PathReplay, other: &mut PathReplay) -> bool
    ensures { IsTrue result → (w0 v0 : SpecReplay) (last : _)
        → GoOnTogether flows.now w0 v0 one.old other.old last
        → GoOnTogether flows.now w0 v0 one.new other.new last }
{
    for _turn in 0..usize::MAX {
        let went = one.go_back(flows);
        let other_went = other.go_back(flows);
        if !are_alike(went, other_went) {
            return false;
        }
        if !went {
            return true;
        }
    }
    false
}

// Takes an edge on both paths, by its number. Reports whether both went.
fn both_along(
    flows: &Flows,
    number: usize,
    one: &mut PathReplay,
    other: &mut PathReplay,
) -> Result<bool, Memory>
    ensures { BothWent flows.now number one.old other.old one.new other.new result }
{
    if one.template != other.template {
        return Ok(false);
    }
    if !one.go_along(flows, number)? {
        return Ok(false);
    }
    other.go_along(flows, number)
}

// Takes an edge on both paths, on which they go on as ones that met apart; if they have not come apart before it, they do in its text.
fn step_together(
    flows: &Flows,
    number: usize,
    one: &mut PathReplay,
    other: &mut PathReplay,
    apart: bool,
) -> Result<Option<Option<(Place, Place)>>, Memory>
    ensures { IfOk result (λ found. IfSome found
        (StepTogether apart flows.now one.old other.old one.new other.new)) }
{
    let passed = passed_edge(flows, one.template, number, one.place, other.place, apart);
    let Some(found) = passed else {
        return Ok(None);
    };
    if both_along(flows, number, one, other)? {
        return Ok(Some(found));
    }
    Ok(None)
}

// Goes on on both paths to a point of their template, where nothing is chosen on the way.
fn both_to(
    alloc: Global,
    flows: &Flows,
    ways: &mut WaysTogether,
    to: Point,
    one: &mut PathReplay,
    other: &mut PathReplay,
) -> Result<Option<Option<(Place, Place)>>, Memory>
    ensures ways { AreWaysTogether flows.now ways.old
        → OnOk result (AreWaysTogether flows.now ways.new) }
    ensures goes { AreWaysTogether flows.now ways.old → IfOk result (λ found. IfSome found
        (GoBoth flows.now (replay_data one.old) (replay_data other.old)
        (replay_data one.new) (replay_data other.new))) }
{
    if one.template != other.template {
        return Ok(None);
    }
    if !same_point(one.point, other.point) {
        return Ok(None);
    }
    let reached = ways.reach(
        alloc,
        flows,
        one.template,
        one.point,
        one.place,
        other.place,
        to,
    )?;
    match reached {
        Some(exit) => {
            one.point = to;
            one.place = exit.one;
            other.point = to;
            other.place = exit.other;
            Ok(Some(exit.last))
        }
        None => Ok(None),
    }
}

// Takes a step on both paths that met apart before it.
fn take_together(
    alloc: Global,
    flows: &Flows,
    ways: &mut WaysTogether,
    step: CandidateStep,
    one: &mut PathReplay,
    other: &mut PathReplay,
) -> Result<Option<Option<(Place, Place)>>, Memory>
    ensures ways { AreWaysTogether flows.now ways.old
        → OnOk result (AreWaysTogether flows.now ways.new) }
    ensures goes { AreWaysTogether flows.now ways.old → IfOk result (λ found. IfSome found
        (GoBoth flows.now (replay_data one.old) (replay_data other.old)
        (replay_data one.new) (replay_data other.new))) }
{
    match step {
        CandidateStep::Along(number) => step_together(flows, number as usize, one, other, true),
        CandidateStep::To(point) => both_to(alloc, flows, ways, point, one, other),
    }
}

// Takes the first edge on both paths from where they met, if they come apart in its text.
fn first_together(
    flows: &Flows,
    step: CandidateStep,
    one: &mut PathReplay,
    other: &mut PathReplay,
) -> Result<Option<Option<(Place, Place)>>, Memory>
    ensures { IfOk result (λ found. IfSome found
        (GoOnTogether flows.now one.old other.old one.new other.new)) }
{
    match step {
        CandidateStep::Along(number) => step_together(flows, number as usize, one, other, false),
        CandidateStep::To(_) => Ok(None),
    }
}

// Takes a further step on both paths, after going back where both stand at the end of a template.
fn next_together(
    alloc: Global,
    flows: &Flows,
    ways: &mut WaysTogether,
    step: CandidateStep,
    one: &mut PathReplay,
    other: &mut PathReplay,
    last: Option<(Place, Place)>,
) -> Result<Option<Option<(Place, Place)>>, Memory>
    ensures ways { AreWaysTogether flows.now ways.old
        → OnOk result (AreWaysTogether flows.now ways.new) }
    ensures goes { AreWaysTogether flows.now ways.old
        → (w0 v0 : SpecReplay) → GoOnTogether flows.now w0 v0 one.old other.old last
        → IfOk result (λ now. IfSome now (GoOnTogether flows.now w0 v0 one.new other.new)) }
{
    if !back_together(flows, one, other) {
        return Ok(None);
    }
    match take_together(alloc, flows, ways, step, one, other)? {
        Some(found) => Ok(Some(latest(last, found))),
        None => Ok(None),
    }
}

// Takes further steps on both paths, and goes back where both stand at the end of a template.
fn all_together(
    alloc: Global,
    flows: &Flows,
    steps: &[CandidateStep],
    one: &mut PathReplay,
    other: &mut PathReplay,
    last: Option<(Place, Place)>,
) -> Result<Option<Option<(Place, Place)>>, Memory>
    ensures { (w0 v0 : SpecReplay) → GoOnTogether flows.now w0 v0 one.old other.old last
        → IfOk result (λ now. IfSome now (GoOnTogether flows.now w0 v0 one.new other.new)) }
{
    let mut ways = WaysTogether::new(alloc, flows.forest().count())?;
    let mut last = last;
    for step in steps {
        match next_together(alloc, flows, &mut ways, *step, one, other, last)? {
            Some(now) => last = now,
            None => return Ok(None),
        }
    }
    if back_together(flows, one, other) {
        return Ok(Some(last));
    }
    Ok(None)
}

/// Takes steps on both of two paths that met, if they go on as ones that met apart; gives their places at the last point at which they were
/// apart, where there was one. None where they do not. Fails only if allocation fails. It takes time in proportion to the steps, and to the
/// texts on the ways that they stand for, each once.
pub(crate) fn go_together(
    alloc: Global,
    flows: &Flows,
    common: &[CandidateStep],
    one: &mut PathReplay,
    other: &mut PathReplay,
) -> Result<Option<Option<(Place, Place)>>, Memory>
    ensures { IfOk result (λ last. IfSome last
        (GoOnTogether flows.now one.old other.old one.new other.new)) }
{
    if spells_apart(one.place, other.place) {
        return all_together(alloc, flows, common, one, other, None);
    }
    let Some((first, more)) = common.split_first() else {
        return Ok(None);
    };
    match first_together(flows, *first, one, other)? {
        Some(found) => all_together(alloc, flows, more, one, other, found),
        None => Ok(None),
    }
}
