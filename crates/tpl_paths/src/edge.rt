use crate::choice::Way;
use crate::point::Point;

/// What leads from one point of a template to another.
#[derive(Clone, Copy, Debug)]
pub enum Edge {
    /// A text, by its node, to where it leads.
    Writes(u32, Point),
    /// A hole, by its node, to where it leads.
    Fills(u32, Point),
    /// A call of another template, by its node, to where it goes on after the call.
    Calls(u32, Point),
    /// A choice at a point, and where it leads.
    Picks(Point, Way, Point),
    /// Nothing: a declaration or an assignment, a `break`, a `continue`, and the end of a part.
    Passes(Point, Point),
}
