// Ways of two paths within templates that they go together, as ones that met apart, and on which nothing is chosen.
ghost use Rattle.std.specs.Prelude.{◌≡◌, ◌<◌, All, IfOk, IfSome, OnOk, Some, length, slice_get, true};
ghost use Rattle.place_flow.specs.Flows.{edges_at};
ghost use Rattle.place_flow.specs.Transfer.{step_of};
ghost use Rattle.place_flow.specs.declared.step.EdgeStep.TheVariants as step;
ghost use Rattle.place_show.specs.Together.{IsPassedEdge};
ghost use Rattle.place_show.specs.Together as spec;
ghost use Rattle.place_show.specs.WaysTogether.{AreWaysTogether, IsGoingTogether, IsOnTogether, IsOnTogetherFrom};
ghost use Rattle.place_show.specs.WaysTogether.{IsWayTogether, LeadsTogether};
ghost use Rattle.tpl_paths.specs.Edges.{from_of, to_of};
ghost use Rattle.tpl_paths.specs.Edges as edges;
ghost use Rattle.tpl_tree.specs.Forests.{ForestData, HasAscendingNames};

use crate::passing::{latest, passed_edge};
use page_io::Memory;
use place_core::{Place, same};
use place_flow::{EdgeStep, Flows, transfer};
use place_trace::{FirstEdges, PointNumbers, same_point};
use std::alloc::Global;
use tpl_paths::Point;

/// The places of two paths, and of both at the last point so far at which they were apart, where there was one.
#[derive(Clone, Copy, Debug)]
pub(crate) struct TwoPlaces {
    pub one: Place,
    pub other: Place,
    pub last: Option<(Place, Place)>,
}

/// A way of two paths in a template: the point from which it leads and their places there; the point to which it leads, and their places
/// there.
#[derive(Clone, Copy, Debug)]
pub(crate) struct WayTogether {
    pub template: u32,
    pub from: Point,
    pub one: Place,
    pub other: Place,
    pub to: Point,
    pub exit: TwoPlaces,
    // the number of the one that was added before from the same point
    pub next: Option<usize>,
}

/// Ways in templates, each of which is gone once.
#[derive(Debug, Drop)]
pub(crate) struct WaysTogether {
    pub ways: Vec<WayTogether>,
    // by the points from which they lead, the last ones
    last: PointNumbers,
    edges: FirstEdges,
}

// How far a way in a template was gone: the point from which it leads and the places there, the point to which it is to lead; the point that
// was come to and the places there.
#[derive(Clone, Copy, Debug)]
pub(crate) struct GoingTogether {
    pub template: u32,
    pub from: Point,
    pub one: Place,
    pub other: Place,
    pub to: Point,
    pub point: Point,
    pub places: TwoPlaces,
}

// What a step on a way comes to.
#[derive(Clone, Copy, Debug)]
enum OnTogether {
    // A further point.
    At(GoingTogether),
    // The call of a template whose way is not known yet.
    Calls(u32, Place, Place),
    // Nothing: there is a choice, or the two do not go on as ones that met apart.
    Nowhere,
}

impl WaysTogether {
    /// None yet, of so many templates. Fails only if allocation fails.
    pub(crate) fn new(alloc: Global, templates: usize) -> Result<WaysTogether, Memory>
        ensures { (forest : ForestData) → IfOk result (AreWaysTogether forest) }
    {
        Ok(WaysTogether {
            ways: Vec::new(alloc),
            last: PointNumbers::new(alloc, templates)?,
            edges: FirstEdges::new(alloc, templates)?,
        })
    }

    // Where the way leads from one point to another one, where it was gone.
    fn exit(
        &self,
        template: u32,
        from: Point,
        one: Place,
        other: Place,
        to: Point,
    ) -> Option<TwoPlaces>
        ensures { (forest : ForestData) → AreWaysTogether forest self.now
            → IfSome result (LeadsTogether forest template from one other to) }
    {
        let mut number = self.last.get(template, from);
        for _way in 0..self.ways.len() {
            let Some(at) = number else {
                return None;
            };
            let ways = self.ways.as_slice();
            if let Some(exit) = exit_at(ways, at, template, from, one, other, to) {
                return Some(exit);
            }
            number = next_of(ways, at);
        }
        None
    }

    // The number of the way that was added last from a point.
    fn last_from(&self, template: u32, from: Point) -> Option<usize> {
        self.last.get(template, from)
    }

    // Adds a way. Fails only if allocation fails.
    fn add(&mut self, alloc: Global, flows: &Flows, way: WayTogether) -> Result<(), Memory>
        ensures { (forest : ForestData) → IsWayTogether forest way
            → AreWaysTogether forest self.old → OnOk result (AreWaysTogether forest self.new) }
    {
        let number = self.ways.len();
        self.ways.push(way)?;
        self.last.set(alloc, flows, way.template, way.from, number)?;
        Ok(())
    }

    /// Where a way leads two paths from a point of a template, by their places there, to another point of it, where they go on as ones that
    /// met apart and nothing is chosen. None where they do not, where something is chosen, or where no way comes there. Fails only if
    /// allocation fails. Each way in a template is gone once, so it takes time in proportion to the texts on it, and on those through
    /// templates that were not gone through from those places before.
    pub(crate) fn reach(
        &mut self,
        alloc: Global,
        flows: &Flows,
        template: u32,
        from: Point,
        one: Place,
        other: Place,
        to: Point,
    ) -> Result<Option<TwoPlaces>, Memory>
        ensures ways { AreWaysTogether flows.now self.old
            → OnOk result (AreWaysTogether flows.now self.new) }
        ensures reaches { AreWaysTogether flows.now self.old → IfOk result
            (λ found. IfSome found (LeadsTogether flows.now template from one other to)) }
    {
        if let Some(exit) = self.exit(template, from, one, other, to) {
            return Ok(Some(exit));
        }
        let mut callers = Vec::new(alloc);
        let mut at = begun(template, from, one, other, to);
        for _turn in 0..usize::MAX {
            match self.go(alloc, flows, &mut callers, at)? {
                Some(next) => at = next,
                None => return Ok(self.exit(template, from, one, other, to)),
            }
        }
        Ok(None)
    }

    // A step further: where a way has come to its point, back to its caller. None where there is no way further, and at the end of the first
    // one.
    fn go(
        &mut self,
        alloc: Global,
        flows: &Flows,
        callers: &mut Vec<GoingTogether>,
        at: GoingTogether,
    ) -> Result<Option<GoingTogether>, Memory>
        ensures ways { AreWaysTogether flows.now self.old → IsGoingTogether flows.now at
            → OnOk result (AreWaysTogether flows.now self.new) }
        ensures going { AreWaysTogether flows.now self.old → IsGoingTogether flows.now at
            → All (IsGoingTogether flows.now) callers.old.items
            → IfOk result (IsOnTogetherFrom flows.now callers.new.items) }
    {
        if same_point(at.point, at.to) {
            let way = way_of(at, self.last_from(at.template, at.from));
            self.add(alloc, flows, way)?;
            return Ok(callers.pop());
        }
        let number = self.edges.first(alloc, flows, at.template, at.point)?;
        match step_on(flows, self, at, number) {
            OnTogether::At(next) => Ok(Some(next)),
            OnTogether::Calls(callee, one, other) => enter(flows, callers, at, callee, one, other),
            OnTogether::Nowhere => Ok(None),
        }
    }
}

// Goes into a template that is called, to its end. Each template on a way is called by the one before it: where they are more than there
// are, one calls itself, and no way comes to an end.
fn enter(
    flows: &Flows,
    callers: &mut Vec<GoingTogether>,
    at: GoingTogether,
    callee: u32,
    one: Place,
    other: Place,
) -> Result<Option<GoingTogether>, Memory>
    ensures { IsGoingTogether flows.now at → All (IsGoingTogether flows.now) callers.old.items
        → IfOk result (IsOnTogetherFrom flows.now callers.new.items) }
{
    if callers.len() >= flows.forest().count() {
        return Ok(None);
    }
    callers.push(at)?;
    Ok(Some(begun(callee, flows.start(callee), one, other, Point::Finish)))
}

// The way of a number, where it is one between these points from these places.
fn exit_at(
    ways: &[WayTogether],
    number: usize,
    template: u32,
    from: Point,
    one: Place,
    other: Place,
    to: Point,
) -> Option<TwoPlaces>
    ensures { (forest : ForestData) → All (IsWayTogether forest) ways.now
        → IfSome result (LeadsTogether forest template from one other to) }
{
    match ways.get(number) {
        Some(way) => exit_of(*way, template, from, one, other, to),
        None => None,
    }
}

fn exit_of(
    way: WayTogether,
    template: u32,
    from: Point,
    one: Place,
    other: Place,
    to: Point,
) -> Option<TwoPlaces>
    ensures { (forest : ForestData) → IsWayTogether forest way
        → IfSome result (LeadsTogether forest template from one other to) }
{
    if way.template != template {
        return None;
    }
    if !same_point(way.from, from) {
        return None;
    }
    if !same_point(way.to, to) {
        return None;
    }
    if same(way.one, one) && same(way.other, other) {
        return Some(way.exit);
    }
    None
}

// The number of the way that was added before the one of a number from the same point.
fn next_of(ways: &[WayTogether], number: usize) -> Option<usize> {
    match ways.get(number) {
        Some(way) => way.next,
        None => None,
    }
}

// Where a way begins.
fn begun(template: u32, from: Point, one: Place, other: Place, to: Point) -> GoingTogether
    ensures { (forest : ForestData) → IsGoingTogether forest result }
{
    GoingTogether {
        template,
        from,
        one,
        other,
        to,
        point: from,
        places: TwoPlaces {
            one,
            other,
            last: None,
        },
    }
}

// The way of one that has come to its point.
fn way_of(at: GoingTogether, next: Option<usize>) -> WayTogether
    ensures { (forest : ForestData) → at.point ≡ at.to → IsGoingTogether forest at
        → IsWayTogether forest result }
{
    WayTogether {
        template: at.template,
        from: at.from,
        one: at.one,
        other: at.other,
        to: at.to,
        exit: at.places,
        next,
    }
}

// A step on a way, along the edge of a number.
fn step_on(
    flows: &Flows,
    ways: &WaysTogether,
    at: GoingTogether,
    number: Option<usize>,
) -> OnTogether
    ensures { AreWaysTogether flows.now ways.now → IsGoingTogether flows.now at
        → IsOnTogether flows.now result }
{
    if at.template as usize >= flows.forest().count() {
        return OnTogether::Nowhere;
    }
    let Some(number) = number else {
        return OnTogether::Nowhere;
    };
    match flows.ends(at.template, number) {
        Some((from, to)) => {
            if same_point(at.point, from) {
                along(flows, ways, at, number, to)
            } else {
                OnTogether::Nowhere
            }
        }
        None => OnTogether::Nowhere,
    }
}

// Likewise, to where it leads.
fn along(
    flows: &Flows,
    ways: &WaysTogether,
    at: GoingTogether,
    number: usize,
    to: Point,
) -> OnTogether
    ensures { HasAscendingNames flows.now → at.template < length flows.now → (e : edges.Edge)
        → slice_get (edges_at flows.now at.template) number ≡ Some e
        → at.point ≡ from_of e → to ≡ to_of e
        → AreWaysTogether flows.now ways.now → IsGoingTogether flows.now at
        → IsOnTogether flows.now result }
{
    let (one, other) = (at.places.one, at.places.other);
    let Some(found) = passed_edge(flows, at.template, number, one, other, true) else {
        return OnTogether::Nowhere;
    };
    match transfer(flows, at.template, number, one) {
        EdgeStep::Reaches(place) => reached(flows, at, number, to, found, place),
        EdgeStep::Enters(callee, place) => entered(
            flows, ways, at, number, to, found, callee, place,
        ),
        EdgeStep::Refused => OnTogether::Nowhere,
    }
}

// Likewise along one that is no call, where it is no choice, and by which the first path comes to a place.
fn reached(
    flows: &Flows,
    at: GoingTogether,
    number: usize,
    to: Point,
    found: Option<(Place, Place)>,
    place: Place,
) -> OnTogether
    ensures { HasAscendingNames flows.now → (e : edges.Edge)
        → slice_get (edges_at flows.now at.template) number ≡ Some e
        → at.point ≡ from_of e → to ≡ to_of e
        → IsPassedEdge true e at.places.one at.places.other found
        → step_of flows.now at.template e at.places.one ≡ step.Reaches place
        → IsGoingTogether flows.now at → IsOnTogether flows.now result }
{
    match flows.choice(at.template, number) {
        Some(_) => OnTogether::Nowhere,
        None => match transfer(flows, at.template, number, at.places.other) {
            EdgeStep::Reaches(other) => OnTogether::At(gone(at, to, place, other, found)),
            _ => OnTogether::Nowhere,
        },
    }
}

// Likewise along a call, by which the first path enters a template in a place.
fn entered(
    flows: &Flows,
    ways: &WaysTogether,
    at: GoingTogether,
    number: usize,
    to: Point,
    found: Option<(Place, Place)>,
    callee: u32,
    place: Place,
) -> OnTogether
    ensures { HasAscendingNames flows.now → at.template < length flows.now → (e : edges.Edge)
        → slice_get (edges_at flows.now at.template) number ≡ Some e
        → at.point ≡ from_of e → to ≡ to_of e
        → IsPassedEdge true e at.places.one at.places.other found
        → step_of flows.now at.template e at.places.one ≡ step.Enters callee place
        → AreWaysTogether flows.now ways.now → IsGoingTogether flows.now at
        → IsOnTogether flows.now result }
{
    match transfer(flows, at.template, number, at.places.other) {
        EdgeStep::Enters(template, other) => {
            if template != callee {
                return OnTogether::Nowhere;
            }
            match ways.exit(callee, flows.start(callee), place, other, Point::Finish) {
                Some(exit) => OnTogether::At(behind(at, to, found, exit)),
                None => OnTogether::Calls(callee, place, other),
            }
        }
        _ => OnTogether::Nowhere,
    }
}

fn gone(
    at: GoingTogether,
    point: Point,
    one: Place,
    other: Place,
    found: Option<(Place, Place)>,
) -> GoingTogether
    ensures { result ≡ record {
      template = at.template;
      from = at.from;
      one = at.one;
      other = at.other;
      to = at.to;
      point = point;
      places = record { one = one; other = other; last = spec.latest at.places.last found };
    } }
{
    let last = latest(at.places.last, found);
    GoingTogether {
        point,
        places: TwoPlaces { one, other, last },
        ..at
    }
}

// Behind a call, through the template of which the two went to an exit.
fn behind(
    at: GoingTogether,
    point: Point,
    found: Option<(Place, Place)>,
    exit: TwoPlaces,
) -> GoingTogether
    ensures { result ≡ record {
      template = at.template;
      from = at.from;
      one = at.one;
      other = at.other;
      to = at.to;
      point = point;
      places = record {
        one = exit.one;
        other = exit.other;
        last = spec.latest (spec.latest at.places.last found) exit.last;
      };
    } }
{
    let last = latest(latest(at.places.last, found), exit.last);
    GoingTogether {
        point,
        places: TwoPlaces { last, ..exit },
        ..at
    }
}
