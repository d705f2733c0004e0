// Ways of paths within templates on which nothing is chosen.
ghost use Rattle.std.specs.Prelude.{◌≡◌, ◌<◌, All, IfOk, IfSome, OnOk, Some, length, slice_get};
ghost use Rattle.place_flow.specs.Flows.{edges_at};
ghost use Rattle.place_flow.specs.Transfer.{step_of};
ghost use Rattle.place_flow.specs.declared.step.EdgeStep.TheVariants as step;
ghost use Rattle.place_trace.specs.UnchosenWays.{AreUnchosenWays, IsGoingUnchosen, IsOnward, IsOnwardFrom};
ghost use Rattle.place_trace.specs.UnchosenWays.{IsUnchosenWay, LeadsUnchosen};
ghost use Rattle.tpl_paths.specs.Edges.{from_of, to_of};
ghost use Rattle.tpl_paths.specs.Edges as spec;
ghost use Rattle.tpl_tree.specs.Forests.{ForestData, HasAscendingNames};

use crate::first_edges::FirstEdges;
use crate::point_numbers::PointNumbers;
use crate::points::same_point;
use page_io::Memory;
use place_core::{Place, same};
use place_flow::{EdgeStep, Flows, transfer};
use std::alloc::Global;
use tpl_paths::Point;

/// A way in a template on which nothing is chosen: the point from which it leads and the place there, the point to which it leads and the
/// place there.
#[derive(Clone, Copy, Debug)]
pub(crate) struct UnchosenWay {
    pub template: u32,
    pub from: Point,
    pub entry: Place,
    pub to: Point,
    pub exit: Place,
    // the number of the one that was added before from the same point
    pub next: Option<usize>,
}

/// Ways in templates, each of which is gone once.
#[derive(Debug, Drop)]
pub(crate) struct UnchosenWays {
    pub ways: Vec<UnchosenWay>,
    // by the points from which they lead, the last ones
    last: PointNumbers,
    edges: FirstEdges,
}

// How far a way in a template was gone: the point from which it leads and the place there, the point to which it is to lead; the point that
// was come to and the place there.
#[derive(Clone, Copy, Debug)]
pub(crate) struct GoingUnchosen {
    pub template: u32,
    pub from: Point,
    pub entry: Place,
    pub to: Point,
    pub point: Point,
    pub place: Place,
}

// What a step on a way comes to.
#[derive(Clone, Copy, Debug)]
enum Onward {
    // A further point.
    At(GoingUnchosen),
    // The call of a template whose way is not known yet.
    Calls(u32, Place),
    // Nothing: there is a choice, or the next node is refused.
    Nowhere,
}

impl UnchosenWays {
    /// None yet, of so many templates. Fails only if allocation fails.
    pub(crate) fn new(alloc: Global, templates: usize) -> Result<UnchosenWays, Memory>
        ensures { (forest : ForestData) → IfOk result (AreUnchosenWays forest) }
    {
        Ok(UnchosenWays {
            ways: Vec::new(alloc),
            last: PointNumbers::new(alloc, templates)?,
            edges: FirstEdges::new(alloc, templates)?,
        })
    }

    // Where the way leads from one point to another one, where it was gone.
    fn exit(&self, template: u32, from: Point, entry: Place, to: Point) -> Option<Place>
        ensures { (forest : ForestData) → AreUnchosenWays forest self.now
            → IfSome result (LeadsUnchosen forest template from entry to) }
    {
        let mut number = self.last.get(template, from);
        for _way in 0..self.ways.len() {
            let Some(at) = number else {
                return None;
            };
            if let Some(exit) = exit_at(self.ways.as_slice(), at, template, from, entry, to) {
                return Some(exit);
            }
            number = next_of(self.ways.as_slice(), at);
        }
        None
    }

    // The number of the way that was added last from a point.
    fn last_from(&self, template: u32, from: Point) -> Option<usize> {
        self.last.get(template, from)
    }

    // Adds a way. Fails only if allocation fails.
    fn add(&mut self, alloc: Global, flows: &Flows, way: UnchosenWay) -> Result<(), Memory>
        ensures { (forest : ForestData) → IsUnchosenWay forest way
            → AreUnchosenWays forest self.old → OnOk result (AreUnchosenWays forest self.new) }
    {
        let number = self.ways.len();
        self.ways.push(way)?;
        self.last.set(alloc, flows, way.template, way.from, number)?;
        Ok(())
    }

    /// Where a way leads from a point of a template in a place to another point of it, where nothing is chosen on it. None where something
    /// is, where a node on the way is refused, or where no way comes there. Fails only if allocation fails. Each way in a template is gone
    /// once, so it takes time in proportion to the texts on it, and on those through templates that were not gone through from that place
    /// before.
    pub(crate) fn reach(
        &mut self,
        alloc: Global,
        flows: &Flows,
        template: u32,
        from: Point,
        entry: Place,
        to: Point,
    ) -> Result<Option<Place>, Memory>
        ensures ways { AreUnchosenWays flows.now self.old
            → OnOk result (AreUnchosenWays flows.now self.new) }
        ensures reaches { AreUnchosenWays flows.now self.old
            → IfOk result (λ found. IfSome found (LeadsUnchosen flows.now template from entry to)) }
    {
        if let Some(exit) = self.exit(template, from, entry, to) {
            return Ok(Some(exit));
        }
        let mut callers = Vec::new(alloc);
        let mut at = begun(template, from, entry, to);
        for _turn in 0..usize::MAX {
            match self.go(alloc, flows, &mut callers, at)? {
                Some(next) => at = next,
                None => return Ok(self.exit(template, from, entry, to)),
            }
        }
        Ok(None)
    }

    // A step further: where a way has come to its point, back to its caller. None where there is no way further, and at the end of the first
    // one.
    fn go(
        &mut self,
        alloc: Global,
        flows: &Flows,
        callers: &mut Vec<GoingUnchosen>,
        at: GoingUnchosen,
    ) -> Result<Option<GoingUnchosen>, Memory>
        ensures ways { AreUnchosenWays flows.now self.old → IsGoingUnchosen flows.now at
            → OnOk result (AreUnchosenWays flows.now self.new) }
        ensures going { AreUnchosenWays flows.now self.old → IsGoingUnchosen flows.now at
            → All (IsGoingUnchosen flows.now) callers.old.items
            → IfOk result (IsOnwardFrom flows.now callers.new.items) }
    {
        if same_point(at.point, at.to) {
            let way = way_of(at, self.last_from(at.template, at.from));
            self.add(alloc, flows, way)?;
            return Ok(callers.pop());
        }
        let number = self.edges.first(alloc, flows, at.template, at.point)?;
        match step_on(flows, self, at, number) {
            Onward::At(next) => Ok(Some(next)),
            Onward::Calls(callee, place) => enter(flows, callers, at, callee, place),
            Onward::Nowhere => Ok(None),
        }
    }
}

// Goes into a template that is called, to its end. Each template on a way is called by the one before it: where they are more than there
// are, one calls itself, and no way comes to an end.
fn enter(
    flows: &Flows,
    callers: &mut Vec<GoingUnchosen>,
    at: GoingUnchosen,
    callee: u32,
    place: Place,
) -> Result<Option<GoingUnchosen>, Memory>
    ensures { IsGoingUnchosen flows.now at → All (IsGoingUnchosen flows.now) callers.old.items
        → IfOk result (IsOnwardFrom flows.now callers.new.items) }
{
    if callers.len() >= flows.forest().count() {
        return Ok(None);
    }
    callers.push(at)?;
    Ok(Some(begun(callee, flows.start(callee), place, Point::Finish)))
}

// The way of a number, where it is one between these points from this place.
fn exit_at(
    ways: &[UnchosenWay],
    number: usize,
    template: u32,
    from: Point,
    entry: Place,
    to: Point,
) -> Option<Place>
    ensures { (forest : ForestData) → All (IsUnchosenWay forest) ways.now
        → IfSome result (LeadsUnchosen forest template from entry to) }
{
    match ways.get(number) {
        Some(way) => exit_of(*way, template, from, entry, to),
        None => None,
    }
}

fn exit_of(way: UnchosenWay, template: u32, from: Point, entry: Place, to: Point) -> Option<Place>
    ensures { (forest : ForestData) → IsUnchosenWay forest way
        → IfSome result (LeadsUnchosen forest template from entry to) }
{
    if way.template != template {
        return None;
    }
    if !same_point(way.from, from) {
        return None;
    }
    if same_point(way.to, to) && same(way.entry, entry) {
        return Some(way.exit);
    }
    None
}

// The number of the way that was added before the one of a number from the same point.
fn next_of(ways: &[UnchosenWay], number: usize) -> Option<usize> {
    match ways.get(number) {
        Some(way) => way.next,
        None => None,
    }
}

// Where a way begins.
fn begun(template: u32, from: Point, entry: Place, to: Point) -> GoingUnchosen
    ensures { (forest : ForestData) → IsGoingUnchosen forest result }
{
    GoingUnchosen {
        template,
        from,
        entry,
        to,
        point: from,
        place: entry,
    }
}

// The way of one that has come to its point.
fn way_of(at: GoingUnchosen, next: Option<usize>) -> UnchosenWay
    ensures { (forest : ForestData) → at.point ≡ at.to → IsGoingUnchosen forest at
        → IsUnchosenWay forest result }
{
    UnchosenWay {
        template: at.template,
        from: at.from,
        entry: at.entry,
        to: at.to,
        exit: at.place,
        next,
    }
}

// A step on a way, along the edge of a number.
fn step_on(flows: &Flows, ways: &UnchosenWays, at: GoingUnchosen, number: Option<usize>) -> Onward
    ensures { AreUnchosenWays flows.now ways.now → IsGoingUnchosen flows.now at
        → IsOnward flows.now result }
{
    if at.template as usize >= flows.forest().count() {
        return Onward::Nowhere;
    }
    let Some(number) = number else {
        return Onward::Nowhere;
    };
    match flows.ends(at.template, number) {
        Some((from, to)) => {
            if same_point(at.point, from) {
                along(flows, ways, at, number, to)
            } else {
                Onward::Nowhere
            }
        }
        None => Onward::Nowhere,
    }
}

// Likewise, to where it leads.
fn along(flows: &Flows, ways: &UnchosenWays, at: GoingUnchosen, number: usize, to: Point) -> Onward
    ensures { HasAscendingNames flows.now → at.template < length flows.now → (e : spec.Edge)
        → slice_get (edges_at flows.now at.template) number ≡ Some e
        → at.point ≡ from_of e → to ≡ to_of e
        → AreUnchosenWays flows.now ways.now → IsGoingUnchosen flows.now at
        → IsOnward flows.now result }
{
    match transfer(flows, at.template, number, at.place) {
        EdgeStep::Reaches(place) => reached(flows, at, number, to, place),
        EdgeStep::Enters(callee, place) => {
            match ways.exit(callee, flows.start(callee), place, Point::Finish) {
                Some(exit) => Onward::At(gone(at, to, exit)),
                None => Onward::Calls(callee, place),
            }
        }
        EdgeStep::Refused => Onward::Nowhere,
    }
}

// Likewise along one that is no call, where it is no choice.
fn reached(flows: &Flows, at: GoingUnchosen, number: usize, to: Point, place: Place) -> Onward
    ensures { HasAscendingNames flows.now → (e : spec.Edge)
        → slice_get (edges_at flows.now at.template) number ≡ Some e
        → at.point ≡ from_of e → to ≡ to_of e
        → step_of flows.now at.template e at.place ≡ step.Reaches place
        → IsGoingUnchosen flows.now at → IsOnward flows.now result }
{
    match flows.choice(at.template, number) {
        Some(_) => Onward::Nowhere,
        None => Onward::At(gone(at, to, place)),
    }
}

fn gone(at: GoingUnchosen, point: Point, place: Place) -> GoingUnchosen
    ensures { result ≡ record {
      template = at.template;
      from = at.from;
      entry = at.entry;
      to = at.to;
      point = point;
      place = place;
    } }
{
    GoingUnchosen { point, place, ..at }
}
