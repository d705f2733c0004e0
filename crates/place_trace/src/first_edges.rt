use crate::point_numbers::PointNumbers;
use page_io::Memory;
use place_flow::Flows;
use std::alloc::Global;
use tpl_paths::Point;

/// The first edges of points, of templates that were asked for.
#[derive(Debug, Drop)]
pub struct FirstEdges {
    numbers: PointNumbers,
}

impl FirstEdges {
    /// None yet, of so many templates. Fails only if allocation fails.
    pub fn new(alloc: Global, templates: usize) -> Result<FirstEdges, Memory> {
        Ok(FirstEdges {
            numbers: PointNumbers::new(alloc, templates)?,
        })
    }

    /// The number of the first edge of a template that leads from a point, where one does: of a point with an edge that is no choice that
    /// one. The edges of each template are gone through once. Fails only if allocation fails.
    pub fn first(
        &mut self,
        alloc: Global,
        flows: &Flows,
        template: u32,
        point: Point,
    ) -> Result<Option<usize>, Memory> {
        if !self.are_listed(template) {
            self.list(alloc, flows, template)?;
        }
        Ok(self.number(template, point))
    }

    fn are_listed(&self, template: u32) -> bool {
        self.numbers.are_of(template)
    }

    fn number(&self, template: u32, point: Point) -> Option<usize> {
        self.numbers.get(template, point)
    }

    // Lists the edges of a template, the last one first.
    fn list(&mut self, alloc: Global, flows: &Flows, template: u32) -> Result<(), Memory> {
        for number in (0..flows.edge_count(template)).rev() {
            if let Some((from, _)) = flows.ends(template, number) {
                self.numbers.set(alloc, flows, template, from, number)?;
            }
        }
        Ok(())
    }
}
