ghost use Rattle.std.specs.Prelude.{◌≡◌, IfOk, false};
ghost use Rattle.place_flow.specs.declared.point_state.PointState.TheVariants as point_state;
ghost use Rattle.place_chart.specs.Summaries.{ArePut, HasNoInner, IsPut, IsRaised};
ghost use Rattle.place_chart.specs.Summaries.{point_state_in};
ghost use Rattle.tpl_paths.specs.Edges as spec;

use crate::inner_states::InnerStates;
use page_io::Memory;
use place_core::Place;
use place_flow::{Flows, PointState, is_point_state_below, join_point_states};
use std::alloc::Global;
use tpl_paths::Point;

/// A template by its number, the place in which it is entered, and what its points have there. Most nodes have one point, that before
/// them, so the other points of controls are in a map.
#[derive(Debug, Drop)]
pub struct Summary {
    /// The template's number in the forest.
    pub template: u32,
    /// The place in which it is entered.
    pub entry: Place,
    /// What the points before nodes have, by the nodes.
    pub before: Vec<PointState>,
    /// What the other points of controls have (`Again`, `Head` and `Past`), by the numbers 3 n, 3 n + 1 and 3 n + 2 of a node n.
    pub inner: InnerStates,
    /// What the end has.
    pub finish: PointState,
}

/// What a point has in a summary.
pub fn point_state_at(summary: &Summary, point: Point) -> PointState
    ensures { result ≡ point_state_in summary.now point }
{
    match point {
        Point::Before(node) => match summary.before.get(node as usize) {
            Some(point_state) => *point_state,
            None => PointState::Unreached,
        },
        Point::Again(node) => summary.inner.get(3 * node as usize),
        Point::Head(node) => summary.inner.get(3 * node as usize + 1),
        Point::Past(node) => summary.inner.get(3 * node as usize + 2),
        Point::Finish => summary.finish,
    }
}

/// A summary of a template with nothing at its points. Fails only if allocation fails. Takes time in proportion to the edges of the
/// template, times the logarithm of its controls.
pub fn blank(alloc: Global, flows: &Flows, template: u32, entry: Place) -> Result<Summary, Memory>
    ensures template { IfOk result (λ summary. summary.template ≡ template) }
    ensures entry { IfOk result (λ summary. summary.entry ≡ entry) }
    ensures nothing { IfOk result (λ summary.
        (k : spec.Point) → point_state_in summary k ≡ point_state.Unreached) }
{
    let inner = blank_inner(alloc, flows, template)?;
    let nodes = flows.nodes(template) as usize;
    Ok(Summary {
        template,
        entry,
        before: vec![in alloc; PointState::Unreached; nodes]?,
        inner,
        finish: PointState::Unreached,
    })
}

// The points of the controls of a template but those before them, with nothing: an edge leads from each.
fn blank_inner(alloc: Global, flows: &Flows, template: u32) -> Result<InnerStates, Memory>
    ensures { IfOk result HasNoInner }
{
    let mut inner = InnerStates::new(alloc);
    for number in 0..flows.edge_count(template) {
        match flows.ends(template, number) {
            Some((Point::Again(node), _)) => inner.add(3 * node as usize)?,
            Some((Point::Head(node), _)) => inner.add(3 * node as usize + 1)?,
            Some((Point::Past(node), _)) => inner.add(3 * node as usize + 2)?,
            _ => {}
        }
    }
    Ok(inner)
}

/// A summary that keeps no points, so that each has nothing. Does not allocate.
pub fn empty_summary(alloc: Global, template: u32, entry: Place) -> Summary
    ensures template { result.template ≡ template }
    ensures entry { result.entry ≡ entry }
    ensures nothing { (k : spec.Point) → point_state_in result k ≡ point_state.Unreached }
{
    Summary {
        template,
        entry,
        before: Vec::new(alloc),
        inner: InnerStates::new(alloc),
        finish: PointState::Unreached,
    }
}

// Raises what a point of a summary has, and reports whether that is more than before.
pub(crate) fn raise(summary: &mut Summary, point: Point, by: PointState) -> bool
    ensures template { summary.new.template ≡ summary.old.template }
    ensures entry { summary.new.entry ≡ summary.old.entry }
    ensures raised { IsRaised summary.old summary.new point by }
    ensures kept { result ≡ false → summary.new ≡ summary.old }
{
    let old = point_state_at(summary, point);
    if is_point_state_below(by, old) {
        return false;
    }
    put(summary, point, join_point_states(old, by))
}

// Gives a state to a point, where the summary has the point, and reports whether it has.
fn put(summary: &mut Summary, point: Point, point_state: PointState) -> bool
    ensures template { summary.new.template ≡ summary.old.template }
    ensures entry { summary.new.entry ≡ summary.old.entry }
    ensures put { IsPut summary.old summary.new point point_state }
    ensures kept { result ≡ false → summary.new ≡ summary.old }
{
    match point {
        Point::Before(node) => put_before(&mut summary.before, node as usize, point_state),
        Point::Again(node) => summary.inner.put(3 * node as usize, point_state),
        Point::Head(node) => summary.inner.put(3 * node as usize + 1, point_state),
        Point::Past(node) => summary.inner.put(3 * node as usize + 2, point_state),
        Point::Finish => {
            summary.finish = point_state;
            true
        }
    }
}

fn put_before(before: &mut Vec<PointState>, node: usize, point_state: PointState) -> bool
    ensures put { ArePut before.old.items before.new.items node point_state }
    ensures kept { result ≡ false → before.new ≡ before.old }
{
    if node >= before.len() {
        return false;
    }
    before[node] = point_state;
    true
}
