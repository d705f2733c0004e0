use crate::point_numbers::PointNumbers;
use crate::standing::Standing;
use page_io::Memory;
use place_core::{Member, Place};
use place_flow::Flows;
use std::alloc::Global;
use tpl_paths::Point;

// A way back in a template on which nothing is chosen: the place in which the template is entered, and the member at the point from which
// it leads back; and to which point, and to which member there.
#[derive(Clone, Copy, Debug)]
struct BackWay {
    entry: Place,
    end: Member,
    start: Point,
    member: Member,
    // the number of the one that was added before from the same point
    next: Option<usize>,
}

/// Ways back in templates, each of which is gone once.
#[derive(Debug, Drop)]
pub(crate) struct BackWays {
    ways: Vec<BackWay>,
    // by the points from which they lead back, the last ones
    last: PointNumbers,
}

impl BackWays {
    /// None yet, of so many templates. Fails only if allocation fails.
    pub(crate) fn new(alloc: Global, templates: usize) -> Result<BackWays, Memory> {
        Ok(BackWays {
            ways: Vec::new(alloc),
            last: PointNumbers::new(alloc, templates)?,
        })
    }

    /// Where the way back leads from where a back trace stands, if it is known: the point, and the member there.
    pub(crate) fn before(&self, at: Standing) -> Option<(Point, Member)> {
        let mut number = self.last_from(at)?;
        for _way in 0..self.ways.len() {
            let way = *self.ways.get(number)?;
            if way.end == at.member && way.entry == at.entry {
                return Some((way.start, way.member));
            }
            number = way.next?;
        }
        None
    }

    // The number of the way that was added last from where a back trace stands.
    fn last_from(&self, at: Standing) -> Option<usize> {
        self.last.get(at.template, at.point)
    }

    /// Adds a way back from a point of a pair to another point of it, with the member there. Fails only if allocation fails.
    pub(crate) fn add(
        &mut self,
        alloc: Global,
        flows: &Flows,
        end: Standing,
        start: Point,
        member: Member,
    ) -> Result<(), Memory> {
        let next = self.last_from(end);
        let number = self.ways.len();
        self.ways.push(BackWay {
            entry: end.entry,
            end: end.member,
            start,
            member,
            next,
        })?;
        self.last.set(alloc, flows, end.template, end.point, number)
    }
}
