use place_core::Place;
use tpl_paths::Point;

/// An edge of a summary, and where it ends.
#[derive(Clone, Copy, Debug)]
pub struct PairEdge {
    /// The summary's number.
    pub summary: usize,
    /// The edge's number in its template.
    pub number: u32,
    /// The template's number.
    pub template: u32,
    /// The place in which it is entered.
    pub entry: Place,
    /// The point to which the edge leads.
    pub to: Point,
}
