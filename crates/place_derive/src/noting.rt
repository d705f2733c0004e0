ghost use Rattle.std.specs.Prelude.{◌≡◌, OnOk};
ghost use Rattle.place_derive.specs.Tracing.{first_conflict_of, logged_along, conflict_of, why_of};
ghost use Rattle.place_derive.specs.Logs.{log_with};

use crate::conflict::{FirstConflict, Why};
use crate::derivation::{Derivation, DerivedFrom};
use crate::log::Log;
use crate::pair_edge::PairEdge;
use page_io::Memory;
use place_core::join;
use place_flow::PointState;

// Logs what an edge gives, where it gives a place.
pub(crate) fn log_along(
    log: &mut Log,
    edge: PairEdge,
    at: PointState,
    by: PointState,
) -> Result<(), Memory>
    ensures { OnOk result (log.new ≡ log_with log.old (logged_along edge at by)) }
{
    match (at, by) {
        (PointState::At(source), PointState::At(derived)) => {
            log.push(Derivation {
                template: edge.template,
                entry: edge.entry,
                point: edge.to,
                from: DerivedFrom::Along(edge.number),
                source,
                place: derived,
            })?;
            Ok(())
        }
        _ => Ok(()),
    }
}

// Why what an edge gives is in conflict with its end.
fn why(by: PointState, old: PointState) -> Option<Why>
    ensures { result ≡ why_of by old }
{
    match by {
        PointState::Unreached => None,
        PointState::At(derived) => match old {
            PointState::Unreached => None,
            PointState::At(before) => match join(before, derived) {
                Some(_) => None,
                None => Some(Why::Clashes(before, derived)),
            },
            PointState::Conflict => None,
        },
        PointState::Conflict => Some(Why::Refused),
    }
}

// The conflict of an edge, if what it gives conflicts with its end.
pub(crate) fn conflict_at(
    edge: PairEdge,
    at: PointState,
    by: PointState,
    old: PointState,
) -> Option<FirstConflict>
    ensures { result ≡ conflict_of edge at by old }
{
    match at {
        PointState::Unreached => None,
        PointState::At(source) => match why(by, old) {
            Some(why) => Some(FirstConflict {
                template: edge.template,
                entry: edge.entry,
                edge: edge.number,
                source,
                why,
            }),
            None => None,
        },
        PointState::Conflict => None,
    }
}

// Keeps the first conflict.
pub(crate) fn keep_first(conflict: &mut Option<FirstConflict>, found: Option<FirstConflict>)
    ensures { conflict.new ≡ first_conflict_of conflict.old found }
{
    match *conflict {
        Some(_) => {}
        None => *conflict = found,
    }
}
