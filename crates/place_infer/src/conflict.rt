ghost use Rattle.std.specs.Prelude.{◌≡◌, All, IsTrue, MatchOption, Contains, false};
ghost use Rattle.place_core.specs.declared.place.Place.TheVariants as place;
ghost use Rattle.place_infer.specs.Inferring.{EndsInText, HasConflictIn};
ghost use Rattle.place_chart.specs.Summaries.{IsConflictFreeSummary, chart_of};
ghost use Rattle.tpl_paths.specs.Edges.{finish_point};

use place_chart::{Summaries, has_conflict};
use place_core::{Place, TEXT};
use place_flow::PointState;
use tpl_paths::Point;

/// The number of a summary with a point in conflict, if there is one.
pub fn conflict_in_summary(summaries: &Summaries) -> Option<usize>
    ensures { MatchOption result (All IsConflictFreeSummary summaries.now)
        (HasConflictIn summaries.now) }
{
    for n in 0..summaries.count() {
        if has_conflict(summaries.summary(n)) {
            return Some(n);
        }
    }
    None
}

// Whether a root that has this at its end ends in text, or never.
fn ends_in_text(at: PointState) -> bool
    ensures text { IsTrue result → EndsInText at }
    ensures elsewhere { (result ≡ false) → EndsInText at → ⊥ }
{
    match at {
        PointState::Unreached => true,
        PointState::At(Place::Text) => true,
        _ => false,
    }
}

/// The first root that can end in another place than text.
pub fn ends_elsewhere(summaries: &Summaries, roots: &[u32]) -> Option<u32>
    ensures { MatchOption result
        (All (λ t. EndsInText (chart_of summaries.now t place.Text finish_point)) roots.now)
        (λ t. Contains roots.now t × (EndsInText (chart_of summaries.now t place.Text finish_point) → ⊥)) }
{
    for root in roots {
        if !ends_in_text(summaries.point_state_of_pair(*root, TEXT, Point::Finish)) {
            return Some(*root);
        }
    }
    None
}
