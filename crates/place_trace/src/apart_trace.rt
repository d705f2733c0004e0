use crate::back_trace::{BackTrace, MOST_STEPS};
use crate::back_ways::BackWays;
use crate::candidate::{Candidate, MetApart};
use crate::derivations::{Derivations, FirstApart};
use crate::standing::Standing;
use page_io::Memory;
use place_core::{Member, has_apart};
use place_derive::{Derivation, DerivedFrom};
use place_flow::Flows;
use std::alloc::Global;

// What a step back along the way that two paths have in common comes to.
#[derive(Debug, Drop)]
enum WayBack {
    // A further point of that way.
    At,
    // The point at which they met, with a back trace from there of each.
    Met(BackTrace, BackTrace),
    // Nothing, where the log does not say how they met.
    Nowhere,
}

/// Two paths of a root that met apart and then took one way to a point: at each point of it the back trace goes back as that came which
/// first gave the point a place at which two paths met apart. A stretch of a template on which nothing is chosen it goes once for each place
/// in which the template is entered. None where the log does not tell of them. Fails if allocation fails, or on a path of more than 2^26
/// steps, as on one of so many choices.
pub fn met_apart(
    alloc: Global,
    flows: &Flows,
    derivations: &Derivations,
    at: Standing,
) -> Result<Option<MetApart>, Memory> {
    let mut way = BackTrace::new(alloc, at);
    let mut ways = BackWays::new(alloc, flows.forest().count())?;
    for _step in 0..MOST_STEPS {
        match step_back(alloc, flows, derivations, &mut ways, &mut way)? {
            WayBack::At => {}
            WayBack::Met(one, other) => return both(alloc, flows, derivations, way, one, other),
            WayBack::Nowhere => return Ok(None),
        }
    }
    Err(Memory)
}

// One step back.
fn step_back(
    alloc: Global,
    flows: &Flows,
    derivations: &Derivations,
    ways: &mut BackWays,
    way: &mut BackTrace,
) -> Result<WayBack, Memory> {
    way.bear(Member::PartOpen);
    way.jump(ways)?;
    let at = way.standing();
    match derivations.first_apart(at.template, at.entry, at.point) {
        Some(FirstApart::By(derivation)) => back_by(alloc, flows, ways, way, derivation),
        Some(FirstApart::ByTwo(one, other)) => met_by(alloc, flows, ways, way, one, other),
        None => Ok(WayBack::Nowhere),
    }
}

// As a derivation came whose place has two paths that met apart: they did so before it, or within its text.
fn back_by(
    alloc: Global,
    flows: &Flows,
    ways: &mut BackWays,
    way: &mut BackTrace,
    derivation: Derivation,
) -> Result<WayBack, Memory> {
    match derivation.from {
        DerivedFrom::Along(edge) => {
            if !flows.is_call(derivation.template, edge as usize) && !has_apart(derivation.source) {
                return met_within(alloc, flows, way, edge);
            }
        }
        _ => {}
    }
    Ok(step_where(way.back_by(alloc, flows, ways, derivation)?))
}

fn step_where(went: bool) -> WayBack {
    if went { WayBack::At } else { WayBack::Nowhere }
}

// They met at the start of an edge, and came apart in its text: before it one is where a URL begins, and the other one is in its beginning.
fn met_within(
    alloc: Global,
    flows: &Flows,
    way: &mut BackTrace,
    edge: u32,
) -> Result<WayBack, Memory> {
    let at = way.standing();
    match flows.ends(at.template, edge as usize) {
        Some((from, _)) => {
            way.back_to(Standing { point: from, ..at }, edge)?;
            let mut one = way.fork(alloc)?;
            let mut other = way.fork(alloc)?;
            one.bear(Member::PartStart);
            other.bear(Member::PartOpen);
            Ok(WayBack::Met(one, other))
        }
        None => Ok(WayBack::Nowhere),
    }
}

// They met where the back trace stands, and came there as two derivations.
fn met_by(
    alloc: Global,
    flows: &Flows,
    ways: &mut BackWays,
    way: &BackTrace,
    first: Derivation,
    second: Derivation,
) -> Result<WayBack, Memory> {
    let mut one = way.fork(alloc)?;
    let mut other = way.fork(alloc)?;
    if !one.back_by(alloc, flows, ways, first)? {
        return Ok(WayBack::Nowhere);
    }
    if !other.back_by(alloc, flows, ways, second)? {
        return Ok(WayBack::Nowhere);
    }
    Ok(WayBack::Met(one, other))
}

// The two paths, where both back traces come to the start of a root.
fn both(
    alloc: Global,
    flows: &Flows,
    derivations: &Derivations,
    way: BackTrace,
    one: BackTrace,
    other: BackTrace,
) -> Result<Option<MetApart>, Memory> {
    let one: Option<Candidate> = one.candidate(alloc, flows, derivations)?;
    let other: Option<Candidate> = other.candidate(alloc, flows, derivations)?;
    match (one, other) {
        (Some(one), Some(other)) => Ok(Some(MetApart {
            one,
            other,
            common: way.into_steps(),
        })),
        _ => Ok(None),
    }
}
