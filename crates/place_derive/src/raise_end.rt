ghost use Rattle.std.specs.Prelude.{◌≡◌, ◌<◌, ◌≤◌, ℕ, List, OnOk, length};
ghost use Rattle.place_core.specs.declared.place.Place.{Place as SpecPlace};
ghost use Rattle.place_derive.specs.Logs.{is_kept};
ghost use Rattle.place_derive.specs.Soundness.{IsSoundDerived};
ghost use Rattle.place_derive.specs.Tracing.{IsPairEdge};
ghost use Rattle.place_chart.specs.Charts.{given};
ghost use Rattle.place_chart.specs.Summaries.{chart_of};
ghost use Rattle.tpl_tree.specs.Forests.{ForestData};
ghost use Rattle.tpl_paths.specs.Edges as spec;

use crate::derived::Derived;
use crate::noting::{conflict_at, keep_first, log_along};
use crate::pair_edge::PairEdge;
use page_io::Memory;
use place_chart::point_state_at;
use place_flow::{PointState, is_point_state_below};
use tpl_paths::Point;

impl Derived {
    // Raises the end of an edge by what the edge gives, from what its start has: logs a place that is given, and keeps the first conflict.
    // Gives the end, where that has more than before.
    pub(crate) fn raise_end(
        &mut self,
        edge: PairEdge,
        at: PointState,
        by: PointState,
    ) -> Result<Option<Point>, Memory>
        requires { edge.summary < length self.old.summaries }
        ensures sound { OnOk result ((forest : ForestData) (roots : List ℕ) (first : SpecPlace)
            (e : spec.Edge)
            → IsPairEdge forest self.old.summaries edge e at
            → by ≡ given forest (chart_of self.old.summaries) edge.template e at
            → IsSoundDerived forest roots first self.old
            → IsSoundDerived forest roots first self.new) }
        ensures keeps { OnOk result (is_kept self.new.log ≡ is_kept self.old.log) }
        ensures length { length self.old.summaries ≤ length self.new.summaries }
    {
        let old = point_state_at(self.summaries.summary(edge.summary), edge.to);
        if is_point_state_below(by, old) {
            return Ok(None);
        }
        keep_first(&mut self.conflict, conflict_at(edge, at, by, old));
        log_along(&mut self.log, edge, at, by)?;
        if self.summaries.raise(edge.summary, edge.to, by) {
            return Ok(Some(edge.to));
        }
        Ok(None)
    }
}
