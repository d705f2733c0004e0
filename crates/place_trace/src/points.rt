ghost use Rattle.std.specs.Prelude.{◌≡◌, IsTrue};
ghost use Rattle.place_trace.specs.Replays as spec;

use tpl_paths::Point;

// The node of a point.
pub(crate) fn node_of(point: Point) -> u32
    ensures { result ≡ spec.point_node point }
{
    match point {
        Point::Before(n) => n,
        Point::Again(n) => n,
        Point::Head(n) => n,
        Point::Past(n) => n,
        Point::Finish => 0,
    }
}

/// Whether two points are one.
pub fn same_point(a: Point, b: Point) -> bool
    ensures { IsTrue result → a ≡ b }
{
    match (a, b) {
        (Point::Before(n), Point::Before(m)) => n == m,
        (Point::Again(n), Point::Again(m)) => n == m,
        (Point::Head(n), Point::Head(m)) => n == m,
        (Point::Past(n), Point::Past(m)) => n == m,
        (Point::Finish, Point::Finish) => true,
        _ => false,
    }
}
