ghost use Rattle.std.specs.Prelude.{◌≡◌};
ghost use Rattle.tpl_paths.specs.EdgeViews.{edge_at};
ghost use Rattle.tpl_paths.specs.Edges.{from_of, to_of};
ghost use Rattle.place_flow.specs.Flows.{points_of};
ghost use Rattle.tpl_paths.specs.Edges as edges;
ghost use Rattle.place_flow.specs.Flows as spec;

use tpl_paths::{Edge, Point};
use tpl_tree::Tree;

/// The number of a point in its template: its end is 0, and each node has four.
pub fn point_number(point: Point) -> usize
    ensures { result ≡ spec.point_number point }
{
    match point {
        Point::Finish => 0,
        Point::Before(n) => 4 * n as usize + 1,
        Point::Again(n) => 4 * n as usize + 2,
        Point::Head(n) => 4 * n as usize + 3,
        Point::Past(n) => 4 * n as usize + 4,
    }
}

/// How many numbers the points of a template have.
pub fn point_count(tree: &Tree) -> usize
    ensures { result ≡ points_of tree.now.nodes }
{
    4 * tree.count() as usize + 1
}

// The points from which and to which an edge leads.
pub(crate) fn edge_ends(edge: Edge) -> (Point, Point)
    ensures { (e : edges.Edge) → edge ≡ edge_at e → result ≡ (from_of e, to_of e) }
{
    match edge {
        Edge::Writes(n, to) => (Point::Before(n), to),
        Edge::Fills(n, to) => (Point::Before(n), to),
        Edge::Calls(n, to) => (Point::Before(n), to),
        Edge::Picks(from, _, to) => (from, to),
        Edge::Passes(from, to) => (from, to),
    }
}
