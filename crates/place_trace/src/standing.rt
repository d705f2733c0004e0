use place_core::{Member, Place};
use place_flow::point_number;
use tpl_paths::Point;

/// Where a back trace stands: at a point of a pair, with a member that the point has there.
#[derive(Clone, Copy, Debug)]
pub struct Standing {
    /// The template's number.
    pub template: u32,
    /// The place in which it is entered.
    pub entry: Place,
    /// The point.
    pub point: Point,
    /// The member.
    pub member: Member,
}

/// Whether a back trace stands twice in the same way.
pub fn same_standing(one: Standing, other: Standing) -> bool {
    one.template == other.template
        && point_number(one.point) == point_number(other.point)
        && one.member == other.member
        && one.entry == other.entry
}
