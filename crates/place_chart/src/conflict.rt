ghost use Rattle.std.specs.Prelude.{◌≡◌, ℕ, IsTrue, false, slice_index_or};
ghost use Rattle.place_flow.specs.PointStates.{IsConflictFree};
ghost use Rattle.place_flow.specs.declared.point_state.PointState.TheVariants as point_state;
ghost use Rattle.place_chart.specs.Conflicts.{HasConflict, HasConflictBefore};
ghost use Rattle.place_chart.specs.Summaries.{IsConflictFreeSummary};

use crate::summary::Summary;
use place_flow::PointState;

/// Whether a point of a summary is in conflict.
pub fn has_conflict(summary: &Summary) -> bool
    ensures conflict_free { result ≡ false → IsConflictFreeSummary summary.now }
    ensures conflict { IsTrue result → HasConflict summary.now }
{
    if is_conflict(summary.finish) {
        return true;
    }
    if has_conflict_before(summary.before.as_slice()) {
        return true;
    }
    summary.inner.has_conflict()
}

// Whether a point before a node is in conflict.
fn has_conflict_before(before: &[PointState]) -> bool
    ensures conflict_free { result ≡ false → (node : ℕ)
        → IsConflictFree (slice_index_or before.now node point_state.Unreached) }
    ensures conflict { IsTrue result → HasConflictBefore before.now }
{
    for point_state in before {
        if is_conflict(*point_state) {
            return true;
        }
    }
    false
}

// Whether what a point has is a conflict.
pub(crate) fn is_conflict(at: PointState) -> bool
    ensures conflict { IsTrue result → at ≡ point_state.Conflict }
    ensures conflict_free { result ≡ false → IsConflictFree at }
{
    match at {
        PointState::Conflict => true,
        _ => false,
    }
}
