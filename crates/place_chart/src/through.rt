ghost use Rattle.std.specs.Prelude.{◌≡◌, Some, slice_get};
ghost use Rattle.place_flow.specs.Flows.{edges_at};
ghost use Rattle.place_chart.specs.Charts.{given, step_given};
ghost use Rattle.place_chart.specs.Summaries.{chart_of};
ghost use Rattle.tpl_paths.specs.Edges as spec;

use crate::summaries::Summaries;
use place_flow::{EdgeStep, Flows, PointState, transfer};
use tpl_paths::Point;

/// What a step gives to the end of its edge: the place where it lands; what the template that it enters has at its end; and what is
/// refused is in conflict.
pub fn through_step(summaries: &Summaries, step: EdgeStep) -> PointState
    ensures { result ≡ step_given (chart_of summaries.now) step }
{
    match step {
        EdgeStep::Reaches(place) => PointState::At(place),
        EdgeStep::Enters(callee, place) => summaries.point_state_of_pair(
            callee,
            place,
            Point::Finish,
        ),
        EdgeStep::Refused => PointState::Conflict,
    }
}

/// What an edge of a template, by its number, gives to its end from what its start has.
pub fn given_by(
    flows: &Flows,
    summaries: &Summaries,
    template: u32,
    number: usize,
    at: PointState,
) -> PointState
    ensures { (e : spec.Edge) → slice_get (edges_at flows.now template) number ≡ Some e
        → result ≡ given flows.now (chart_of summaries.now) template e at }
{
    match at {
        PointState::Unreached => PointState::Unreached,
        PointState::At(place) => through_step(summaries, transfer(flows, template, number, place)),
        PointState::Conflict => PointState::Conflict,
    }
}
