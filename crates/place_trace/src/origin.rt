use crate::edges::kind_at;
use html_step::{after_hole, after_text, hole_from, text_from};
use place_core::{Member, Place, has, is_valid};
use place_flow::Flows;
use tpl_paths::Point;
use tpl_tree::NodeKind;

/// The member before an edge that a member after it comes from, by the point from which the edge leads and the place there. Of an edge that
/// neither writes nor fills it is the member itself, and so where the place after the edge has not this member; and before `Whole`, which
/// each path has, it is `Whole`.
pub fn member_before(
    flows: &Flows,
    template: u32,
    from: Point,
    source: Place,
    member: Member,
) -> Member {
    if member == Member::Whole {
        return member;
    }
    match kind_at(flows.forest(), template, from) {
        Some(NodeKind::Text(text)) => before_text(source, text.as_str(), member),
        Some(NodeKind::Action(_)) => before_hole(source, member),
        _ => member,
    }
}

fn before_text(source: Place, text: &str, member: Member) -> Member {
    if !is_valid(source) || text.len() > u32::MAX as usize {
        return member;
    }
    match after_text(source, text) {
        Ok(after) => {
            if has(after, member) {
                text_from(source, text, member)
            } else {
                member
            }
        }
        Err(_) => member,
    }
}

fn before_hole(source: Place, member: Member) -> Member {
    if !is_valid(source) {
        return member;
    }
    match after_hole(source) {
        Ok((after, _)) => {
            if has(after, member) {
                hole_from(source, member)
            } else {
                member
            }
        }
        Err(_) => member,
    }
}
