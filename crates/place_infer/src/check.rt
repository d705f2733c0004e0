ghost use Rattle.std.specs.Prelude.{◌≡◌, ◌↔◌, ℕ, IsTrue, All, Some, slice_get};
ghost use Rattle.place_flow.specs.Flows.{edges_at};
ghost use Rattle.place_flow.specs.PointStates.{PointStateBelow};
ghost use Rattle.place_chart.specs.Charts.{IsEntered, EdgeLeads, StepEnters, step_given};
ghost use Rattle.place_chart.specs.Summaries.{IsClosedSummary, chart_of, point_state_in};
ghost use Rattle.tpl_paths.specs.Edges.{from_of, to_of};
ghost use Rattle.tpl_paths.specs.Edges as spec;

use place_chart::{Summaries, Summary, point_state_at, through_step};
use place_core::Place;
use place_flow::{EdgeStep, Flows, PointState, is_point_state_below, transfer};

// Whether a template is entered in a place.
fn is_entered(flows: &Flows, summaries: &Summaries, template: u32, entry: Place) -> bool
    ensures { IsTrue result ↔ IsEntered flows.now (chart_of summaries.now) template entry }
{
    let start = flows.start(template);
    is_point_state_below(
        PointState::At(entry),
        summaries.point_state_of_pair(template, entry, start),
    )
}

// Whether a step enters what it calls.
fn enters(flows: &Flows, summaries: &Summaries, step: EdgeStep) -> bool
    ensures { IsTrue result ↔ StepEnters flows.now (chart_of summaries.now) step }
{
    match step {
        EdgeStep::Reaches(_) => true,
        EdgeStep::Enters(callee, place) => is_entered(flows, summaries, callee, place),
        EdgeStep::Refused => true,
    }
}

// Whether a step leads to what the end of its edge has.
fn step_leads(flows: &Flows, summaries: &Summaries, step: EdgeStep, to: PointState) -> bool
    ensures enters { IsTrue result → StepEnters flows.now (chart_of summaries.now) step }
    ensures gives { IsTrue result → PointStateBelow (step_given (chart_of summaries.now) step) to }
{
    enters(flows, summaries, step) && is_point_state_below(through_step(summaries, step), to)
}

// Whether what an edge of a summary gives is below what its end has, by the number of the edge.
fn leads(flows: &Flows, summaries: &Summaries, summary: &Summary, number: usize) -> bool
    ensures { IsTrue result → (e : spec.Edge)
        → slice_get (edges_at flows.now summary.now.template) number ≡ Some e
        → EdgeLeads flows.now (chart_of summaries.now) summary.now.template e
        (point_state_in summary.now (from_of e)) (point_state_in summary.now (to_of e)) }
{
    match flows.ends(summary.template, number) {
        Some((from, to)) => match point_state_at(summary, from) {
            PointState::Unreached => true,
            PointState::At(place) => step_leads(
                flows,
                summaries,
                transfer(flows, summary.template, number, place),
                point_state_at(summary, to),
            ),
            PointState::Conflict => is_point_state_below(
                PointState::Conflict,
                point_state_at(summary, to),
            ),
        },
        None => true,
    }
}

// Whether a summary is closed.
fn is_summary_closed(flows: &Flows, summaries: &Summaries, summary: &Summary) -> bool
    ensures { IsTrue result → IsClosedSummary flows.now (chart_of summaries.now) summary.now }
{
    for number in 0..flows.edge_count(summary.template) {
        if !leads(flows, summaries, summary, number) {
            return false;
        }
    }
    true
}

/// Whether each summary is closed.
pub fn are_closed(flows: &Flows, summaries: &Summaries) -> bool
    ensures { IsTrue result
        → All (IsClosedSummary flows.now (chart_of summaries.now)) summaries.now }
{
    for n in 0..summaries.count() {
        if !is_summary_closed(flows, summaries, summaries.summary(n)) {
            return false;
        }
    }
    true
}

/// Whether each root is entered in a place.
pub fn are_entered(flows: &Flows, summaries: &Summaries, roots: &[u32], first: Place) -> bool
    ensures { IsTrue result
        → All (λ t. IsEntered flows.now (chart_of summaries.now) t first) roots.now }
{
    for root in roots {
        if !is_entered(flows, summaries, *root, first) {
            return false;
        }
    }
    true
}
