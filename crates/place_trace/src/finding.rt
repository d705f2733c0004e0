ghost use Rattle.place_trace.specs.Apart.{IsApartWhere};

use crate::apart_trace::met_apart;
use crate::back_trace::{BackStep, BackTrace};
use crate::back_ways::BackWays;
use crate::candidate::{Candidate, Candidates};
use crate::derivations::{Derivations, derivations_of};
use crate::edges::{edge_to_head, kind_at};
use crate::showing::{clash_shown, node_shown};
use crate::standing::Standing;
use html_step::Evidence;
use page_io::Memory;
use place_core::{Member, Place, TEXT};
use place_derive::{Derivation, FirstConflict, Why};
use place_flow::Flows;
use std::alloc::Global;
use tpl_paths::Point;
use tpl_tree::Forest;

/// Paths that may show why something is in conflict, by the log of what was given before, one or two:
///
/// - where an edge is refused, paths that stand at its start: one that is refused there, two that are refused together, or two that met
///   apart before;
/// - where places clash, a path of each that stand where these meet; where turns of a range end, both go on to its head.
///
/// None where the log does not say where they come from. Fails if allocation fails, or on a path of more than 2^26 steps. It takes time in
/// proportion to the log, to the points of its pairs, and to the steps of the paths with their texts.
pub fn candidates_of_conflict(
    alloc: Global,
    forest: &Forest,
    flows: &Flows,
    log: &[Derivation],
    conflict: &FirstConflict,
) -> Result<Candidates, Memory> {
    let derivations = derivations_of(alloc, flows, log)?;
    match flows.ends(conflict.template, conflict.edge as usize) {
        Some((from, to)) => match conflict.why {
            Why::Refused => of_refusal(alloc, forest, flows, &derivations, conflict, from),
            Why::Clashes(before, derived) => of_clash(
                alloc,
                flows,
                &derivations,
                conflict,
                to,
                before,
                derived,
            ),
        },
        None => Ok(Candidates::AtConflict(Vec::new(alloc))),
    }
}

/// A path of a root to its end, where one comes there: the one that came there first. Fails if allocation fails, or on a path of more than
/// 2^26 steps. It takes time as `candidates_of_conflict`.
pub fn candidate_of_end(
    alloc: Global,
    flows: &Flows,
    log: &[Derivation],
    root: u32,
) -> Result<Option<Candidate>, Memory> {
    let derivations = derivations_of(alloc, flows, log)?;
    let at = Standing {
        template: root,
        entry: TEXT,
        point: Point::Finish,
        member: Member::Whole,
    };
    BackTrace::new(alloc, at).candidate(alloc, flows, &derivations)
}

// Paths to the start of an edge that is refused there.
fn of_refusal(
    alloc: Global,
    forest: &Forest,
    flows: &Flows,
    derivations: &Derivations,
    conflict: &FirstConflict,
    from: Point,
) -> Result<Candidates, Memory> {
    let mut candidates = Vec::new(alloc);
    match refusal_shown(forest, conflict, from) {
        Evidence::One(member) => add_at(
            alloc,
            flows,
            derivations,
            &mut candidates,
            at(conflict, from, member),
        )?,
        Evidence::Two(one, other) => {
            add_at(
                alloc,
                flows,
                derivations,
                &mut candidates,
                at(conflict, from, one),
            )?;
            add_at(
                alloc,
                flows,
                derivations,
                &mut candidates,
                at(conflict, from, other),
            )?;
        }
        Evidence::Apart => {
            let standing = at(conflict, from, Member::PartOpen);
            if let Some(apart) = met_apart(alloc, flows, derivations, standing)? {
                return Ok(Candidates::MetApart(apart));
            }
        }
    }
    Ok(Candidates::AtConflict(candidates))
}

// What shows that an edge is refused at its start.
fn refusal_shown(forest: &Forest, conflict: &FirstConflict, from: Point) -> Evidence
    ensures { IsApartWhere conflict.now.source result }
{
    match kind_at(forest, conflict.template, from) {
        Some(kind) => node_shown(kind, conflict.source),
        None => Evidence::One(Member::Whole),
    }
}

// At a point of the pair of a conflict, with a member.
fn at(conflict: &FirstConflict, point: Point, member: Member) -> Standing {
    Standing {
        template: conflict.template,
        entry: conflict.entry,
        point,
        member,
    }
}

// Adds a path that stands so, where there is one.
fn add_at(
    alloc: Global,
    flows: &Flows,
    derivations: &Derivations,
    candidates: &mut Vec<Candidate>,
    at: Standing,
) -> Result<(), Memory> {
    add(
        alloc,
        flows,
        derivations,
        candidates,
        BackTrace::new(alloc, at),
    )
}

// Adds the path of a back trace, where there is one.
fn add(
    alloc: Global,
    flows: &Flows,
    derivations: &Derivations,
    candidates: &mut Vec<Candidate>,
    back_trace: BackTrace,
) -> Result<(), Memory> {
    if let Some(candidate) = back_trace.candidate(alloc, flows, derivations)? {
        candidates.push(candidate)?;
    }
    Ok(())
}

// A path that came to the end of an edge before, and one that comes along the edge.
fn of_clash(
    alloc: Global,
    flows: &Flows,
    derivations: &Derivations,
    conflict: &FirstConflict,
    to: Point,
    before: Place,
    derived: Place,
) -> Result<Candidates, Memory> {
    let mut candidates = Vec::new(alloc);
    let (one, other) = clash_shown(before, derived);
    let met = met_at(alloc, flows, conflict, to, one)?;
    add(alloc, flows, derivations, &mut candidates, met)?;
    let mut along = met_at(alloc, flows, conflict, to, other)?;
    let mut ways = BackWays::new(alloc, flows.forest().count())?;
    match along.back_along(alloc, flows, &mut ways, conflict.edge, conflict.source)? {
        BackStep::At => add(alloc, flows, derivations, &mut candidates, along)?,
        _ => {}
    }
    Ok(Candidates::AtConflict(candidates))
}

// A back trace that begins where places meet, or at the head after.
fn met_at(
    alloc: Global,
    flows: &Flows,
    conflict: &FirstConflict,
    to: Point,
    member: Member,
) -> Result<BackTrace, Memory> {
    let mut back_trace = BackTrace::new(alloc, at(conflict, to, member));
    if let Some(edge) = edge_to_head(flows, conflict.template, to) {
        back_trace.take(edge)?;
    }
    Ok(back_trace)
}
