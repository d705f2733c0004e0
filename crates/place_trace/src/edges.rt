use place_flow::{Flows, point_number};
use tpl_paths::Point;
use tpl_tree::{Forest, NodeKind};

/// What the node is before which a point of a template stands, where it stands before one.
pub fn kind_at(forest: &Forest, template: u32, point: Point) -> Option<&NodeKind> {
    if template as usize >= forest.count() {
        return None;
    }
    let tree = forest.tree(template);
    match point {
        Point::Before(node) => {
            if node >= tree.count() {
                return None;
            }
            Some(tree.kind(node))
        }
        _ => None,
    }
}

/// The number of the edge that leads to the head of a range from where its turns end. None for any other point. It takes time in
/// proportion to the edges of the template.
pub fn edge_to_head(flows: &Flows, template: u32, point: Point) -> Option<u32> {
    match point {
        Point::Again(node) => edge_between(flows, template, point, Point::Head(node)),
        _ => None,
    }
}

fn edge_between(flows: &Flows, template: u32, from: Point, to: Point) -> Option<u32> {
    for number in 0..flows.edge_count(template) {
        if leads(flows, template, number, from, to) && number <= u32::MAX as usize {
            return Some(number as u32);
        }
    }
    None
}

// Whether an edge leads from one point to another one.
fn leads(flows: &Flows, template: u32, number: usize, from: Point, to: Point) -> bool {
    match flows.ends(template, number) {
        Some((start, end)) => are_same(start, from) && are_same(end, to),
        None => false,
    }
}

fn are_same(one: Point, other: Point) -> bool {
    point_number(one) == point_number(other)
}
