ghost use Rattle.std.specs.Prelude.{◌≡◌, ◌++◌, OnOk, Some, slice_get};
ghost use Rattle.place_flow.specs.Flows.{choice_of, edges_at};
ghost use Rattle.place_trace.specs.Moving.{HasEntered, HasArrived, noted};
ghost use Rattle.place_trace.specs.Replays.{IsPathReplay, WentBy, replay_data};
ghost use Rattle.tpl_paths.specs.Edges.{from_of, to_of};
ghost use Rattle.tpl_tree.specs.Forests.{HasAscendingNames};
ghost use Rattle.tpl_paths.specs.Edges as spec;

use crate::chosen::Chosen;
use crate::points::node_of;
use crate::replay::{PathReplay, ReplayedCall};
use page_io::Memory;
use place_core::Place;
use place_flow::{EdgeStep, Flows, transfer};
use tpl_paths::{Point, Way};

// Notes what is chosen at a point of a template.
fn note(
    chosen: &mut Vec<Chosen>,
    template: u32,
    point: Point,
    choice: Option<Way>,
) -> Result<(), Memory>
    ensures { OnOk result (chosen.new.items ≡ chosen.old.items ++ noted template point choice) }
{
    match choice {
        Some(way) => {
            chosen.push(Chosen {
                template,
                node: node_of(point),
                way,
            })?;
            Ok(())
        }
        None => Ok(()),
    }
}

// Stands at the end of an edge that chooses this.
fn arrive(
    replay: &mut PathReplay,
    to: Point,
    place: Place,
    choice: Option<Way>,
) -> Result<(), Memory>
    ensures { OnOk result
        (HasArrived (replay_data replay.old) (replay_data replay.new) to place choice) }
{
    note(&mut replay.chosen, replay.template, replay.point, choice)?;
    replay.point = to;
    replay.place = place;
    Ok(())
}

// Enters a template that is called.
fn enter(
    replay: &mut PathReplay,
    callee: u32,
    start: Point,
    to: Point,
    place: Place,
) -> Result<(), Memory>
    ensures { OnOk result
        (HasEntered (replay_data replay.old) (replay_data replay.new) callee start to place) }
{
    let call = ReplayedCall {
        template: replay.template,
        node: node_of(replay.point),
        back: to,
    };
    replay.open_calls.push(call)?;
    replay.template = callee;
    replay.point = start;
    replay.place = place;
    Ok(())
}

// Goes on along an edge that begins where the path stands.
pub(crate) fn go_on(
    replay: &mut PathReplay,
    flows: &Flows,
    number: usize,
    to: Point,
) -> Result<bool, Memory>
    ensures path { HasAscendingNames flows.now → (e : spec.Edge)
        → slice_get (edges_at flows.now replay.old.template) number ≡ Some e
        → replay.old.point ≡ from_of e → to ≡ to_of e
        → OnOk result (IsPathReplay flows.now replay.old → IsPathReplay flows.now replay.new) }
    ensures moves { HasAscendingNames flows.now → (e : spec.Edge)
        → slice_get (edges_at flows.now replay.old.template) number ≡ Some e
        → replay.old.point ≡ from_of e → to ≡ to_of e
        → WentBy flows.now replay.old replay.new e result }
{
    match transfer(flows, replay.template, number, replay.place) {
        EdgeStep::Reaches(place) => {
            let choice = flows.choice(replay.template, number);
            arrive(replay, to, place, choice)?;
            Ok(true)
        }
        EdgeStep::Enters(callee, place) => {
            enter(replay, callee, flows.start(callee), to, place)?;
            Ok(true)
        }
        EdgeStep::Refused => Ok(false),
    }
}
