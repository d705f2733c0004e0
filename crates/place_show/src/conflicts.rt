ghost use Rattle.place_show.specs.Conflicts.{ShowsIn, ShowsOnEither};

use crate::clashing::node_clash;
use crate::ending::end_error;
use crate::joining::join_error;
use crate::met_apart::met_apart_error;
use crate::nodes::node_error;
use crate::showing::Showing;
use page_io::Memory;
use place_derive::{Derivation, FirstConflict};
use place_flow::Flows;
use place_trace::{
    Candidate, Candidates, PathReplay, candidate_of_end, candidates_of_conflict, replayed,
};
use std::alloc::Global;
use tpl_tree::Forest;

// What stands on two paths: on both where they meet, or on one of them.
fn error_of_two(
    alloc: Global,
    forest: &Forest,
    replay: &PathReplay,
    other: &PathReplay,
) -> Result<Option<Showing>, Memory>
    ensures { ShowsOnEither forest.now replay.now other.now result }
{
    if let Some(showing) = join_error(alloc, forest, replay, other)? {
        return Ok(Some(showing));
    }
    if let Some(showing) = node_clash(alloc, forest, replay, other)? {
        return Ok(Some(showing));
    }
    error_of_either(alloc, forest, replay, other)
}

// Likewise, on one of them alone.
fn error_of_either(
    alloc: Global,
    forest: &Forest,
    replay: &PathReplay,
    other: &PathReplay,
) -> Result<Option<Showing>, Memory>
    ensures { ShowsOnEither forest.now replay.now other.now result }
{
    if let Some(showing) = node_error(alloc, forest, replay)? {
        return Ok(Some(showing));
    }
    node_error(alloc, forest, other)
}

// The error that two candidates show.
fn shown_by_two(
    alloc: Global,
    forest: &Forest,
    flows: &Flows,
    one: &Candidate,
    other: &Candidate,
) -> Result<Option<Showing>, Memory>
    ensures { ShowsIn flows.now forest.now result }
{
    let one = replayed(alloc, flows, one.root, one.steps.as_slice())?;
    let other = replayed(alloc, flows, other.root, other.steps.as_slice())?;
    match (one, other) {
        (Some(replay), Some(other)) => error_of_two(alloc, forest, &replay, &other),
        _ => Ok(None),
    }
}

// The error that one candidate shows.
fn shown_by_one(
    alloc: Global,
    forest: &Forest,
    flows: &Flows,
    candidate: &Candidate,
) -> Result<Option<Showing>, Memory>
    ensures { ShowsIn flows.now forest.now result }
{
    match replayed(alloc, flows, candidate.root, candidate.steps.as_slice())? {
        Some(replay) => node_error(alloc, forest, &replay),
        None => Ok(None),
    }
}

// The error that some candidates show, one or two.
fn shown_by_paths(
    alloc: Global,
    forest: &Forest,
    flows: &Flows,
    candidates: &[Candidate],
) -> Result<Option<Showing>, Memory>
    ensures { ShowsIn flows.now forest.now result }
{
    match (candidates.get(0), candidates.get(1)) {
        (Some(one), Some(other)) => shown_by_two(alloc, forest, flows, one, other),
        (Some(one), None) => shown_by_one(alloc, forest, flows, one),
        _ => Ok(None),
    }
}

/// The error that stands where something is in conflict, with its paths, which are replayed. None where the log does not tell of them. Fails only if allocation fails.
pub fn shown_conflict(
    alloc: Global,
    forest: &Forest,
    flows: &Flows,
    log: &[Derivation],
    conflict: &FirstConflict,
) -> Result<Option<Showing>, Memory>
    ensures { ShowsIn flows.now forest.now result }
{
    match candidates_of_conflict(alloc, forest, flows, log, conflict)? {
        Candidates::AtConflict(paths) => shown_by_paths(alloc, forest, flows, paths.as_slice()),
        Candidates::MetApart(paths) => met_apart_error(alloc, forest, flows, &paths),
    }
}

/// That a path ends a root in another place than text, with the path, which is replayed. None where the log does not tell of it. Fails only if allocation fails.
pub fn shown_end(
    alloc: Global,
    forest: &Forest,
    flows: &Flows,
    log: &[Derivation],
    root: u32,
) -> Result<Option<Showing>, Memory>
    ensures { ShowsIn flows.now forest.now result }
{
    match candidate_of_end(alloc, flows, log, root)? {
        Some(candidate) => match replayed(
            alloc,
            flows,
            candidate.root,
            candidate.steps.as_slice(),
        )? {
            Some(replay) => end_error(alloc, forest, &replay),
            None => Ok(None),
        },
        None => Ok(None),
    }
}
