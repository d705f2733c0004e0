use page_io::Memory;
use place_flow::{Flows, point_number};
use std::alloc::Global;
use tpl_paths::Point;

/// The edges of a template by the points from which they lead, found by the first edge of each node: `edges_of` puts the edges of a
/// node side by side.
#[derive(Debug, Drop)]
pub struct OutgoingEdges {
    template: u32,
    // by the number of a node, its first edge; `u32::MAX` where it has none, and no edge of that node follows there
    first: Vec<u32>,
}

impl OutgoingEdges {
    /// The edges of a template by their points. Fails only if allocation fails.
    pub fn new(alloc: Global, flows: &Flows, template: u32) -> Result<OutgoingEdges, Memory> {
        let nodes = flows.nodes(template) as usize;
        let mut first = vec![in alloc; u32::MAX; nodes]?;
        for number in (0..flows.edge_count(template)).rev() {
            if let Some((from, _)) = flows.ends(template, number) {
                set_first(&mut first, node_of(from), number);
            }
        }
        Ok(OutgoingEdges { template, first })
    }

    /// The first edge that leads from a point.
    pub fn first(&self, flows: &Flows, point: Point) -> Option<usize> {
        let node = node_of(point)?;
        let number = self.first.get(node as usize)?;
        self.next_from(flows, point, *number as usize)
    }

    /// The next edge that leads from the same point as an edge.
    pub fn next(&self, flows: &Flows, point: Point, number: usize) -> Option<usize> {
        self.next_from(flows, point, number.saturating_add(1))
    }

    // The first edge from a number on that leads from a point, among those that lead from its node.
    fn next_from(&self, flows: &Flows, point: Point, start: usize) -> Option<usize> {
        for number in start..flows.edge_count(self.template) {
            match flows.ends(self.template, number) {
                Some((from, _)) if node_of(from) == node_of(point) => {
                    if point_number(from) == point_number(point) {
                        return Some(number);
                    }
                }
                _ => return None,
            }
        }
        None
    }
}

// The node of a point, where it is not the end.
fn node_of(point: Point) -> Option<u32> {
    match point {
        Point::Before(node) | Point::Again(node) | Point::Head(node) | Point::Past(node) => Some(
            node,
        ),
        Point::Finish => None,
    }
}

// Sets the first edge of a node.
fn set_first(first: &mut Vec<u32>, node: Option<u32>, number: usize) {
    if let Some(node) = node {
        if (node as usize) < first.len() && number <= u32::MAX as usize {
            first[node as usize] = number as u32;
        }
    }
}

/// The edges of each template of a forest. Fails only if allocation fails.
pub fn outgoing_of_each(alloc: Global, flows: &Flows) -> Result<Vec<OutgoingEdges>, Memory> {
    let mut all = Vec::new(alloc);
    for template in 0..flows.forest().count() {
        all.push(OutgoingEdges::new(alloc, flows, template as u32)?)?;
    }
    Ok(all)
}
