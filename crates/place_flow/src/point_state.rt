ghost use Rattle.std.specs.Prelude.{◌≡◌, ◌↔◌, IsTrue};
ghost use Rattle.place_core.specs.place.Places.{Below};
ghost use Rattle.place_flow.specs.PointStates.{PointStateBelow, joined_point_states};

use place_core::{Place, join, same};

/// What a point of a template has.
#[derive(Clone, Copy, Debug)]
pub enum PointState {
    /// Nothing: no path comes there.
    Unreached,
    /// A place, which stands for all paths that come there.
    At(Place),
    /// What is in conflict: a step to it is refused, or places that come together there do not join.
    Conflict,
}

/// What stands for all that two spots stand for.
pub fn join_point_states(a: PointState, b: PointState) -> PointState
    ensures { result ≡ joined_point_states a b }
{
    match (a, b) {
        (PointState::Unreached, _) => b,
        (PointState::At(_), PointState::Unreached) => a,
        (PointState::At(p), PointState::At(q)) => match join(p, q) {
            Some(r) => PointState::At(r),
            None => PointState::Conflict,
        },
        _ => PointState::Conflict,
    }
}

/// Whether a spot is below another one.
pub fn is_point_state_below(a: PointState, b: PointState) -> bool
    ensures { IsTrue result ↔ PointStateBelow a b }
{
    match (a, b) {
        (PointState::Unreached, _) => true,
        (PointState::At(p), PointState::At(q)) => is_below(p, q),
        (PointState::At(_), PointState::Conflict) => true,
        (PointState::Conflict, PointState::Conflict) => true,
        _ => false,
    }
}

// Whether a place is below another one: joined with it, it gives that one.
fn is_below(a: Place, b: Place) -> bool
    ensures { IsTrue result ↔ Below a b }
{
    match join(a, b) {
        Some(c) => same(c, b),
        None => false,
    }
}
