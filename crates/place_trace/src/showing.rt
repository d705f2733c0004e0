ghost use Rattle.std.specs.Prelude.{◌≡◌, ◌<◌, ◌^◌, length};
ghost use Rattle.place_core.specs.place.Places.{IsValid};
ghost use Rattle.place_trace.specs.Apart.{IsApartWhere};

use html_step::{
    Escaper, Evidence, after_hole, after_text, escape_evidence, hole_evidence, may_escape,
    text_evidence,
};
use place_core::{Member, Place, is_valid, join_evidence};
use place_flow::{EscaperUse, Predefined, escaper_use};
use tpl_tree::NodeKind;

/// What shows that a node is refused at a place: for a misused escaper, and for the call of a template that is missing, any path does. That
/// two paths met apart shows it only where the place has it of two of its paths.
pub fn node_shown(kind: &NodeKind, place: Place) -> Evidence
    ensures { IsApartWhere place result }
{
    match escaper_use(kind) {
        EscaperUse::Nothing => step_shown(kind, place),
        EscaperUse::Last(escaper) => escaped_shown(escaper_of(escaper), kind, place),
        EscaperUse::Misused => Evidence::One(Member::Whole),
    }
}

fn escaper_of(escaper: Predefined) -> Escaper {
    match escaper {
        Predefined::Html => Escaper::Html,
        Predefined::Urlquery => Escaper::Urlquery,
    }
}

// What shows that a hole is refused whose last command is an escaper.
fn escaped_shown(escaper: Escaper, kind: &NodeKind, place: Place) -> Evidence
    ensures { IsApartWhere place result }
{
    if !may_escape(place, escaper) && is_valid(place) {
        return Evidence::One(escape_evidence(place, escaper));
    }
    step_shown(kind, place)
}

// What shows that a text or a hole is refused.
fn step_shown(kind: &NodeKind, place: Place) -> Evidence
    ensures { IsApartWhere place result }
{
    if !is_valid(place) {
        return Evidence::One(Member::Whole);
    }
    match kind {
        NodeKind::Text(text) => text_shown(text.as_str(), place),
        NodeKind::Action(_) => hole_shown(place),
        _ => Evidence::One(Member::Whole),
    }
}

fn text_shown(text: &str, place: Place) -> Evidence
    requires { IsValid place }
    ensures { IsApartWhere place result }
{
    if text.len() > u32::MAX as usize {
        return Evidence::One(Member::Whole);
    }
    match after_text(place, text) {
        Err(_) => text_evidence(place, text),
        Ok(_) => Evidence::One(Member::Whole),
    }
}

fn hole_shown(place: Place) -> Evidence
    requires { IsValid place }
    ensures { IsApartWhere place result }
{
    match after_hole(place) {
        Err(_) => hole_evidence(place),
        Ok(_) => Evidence::One(Member::Whole),
    }
}

/// Two members, one of each place, that show that the places do not join.
pub fn clash_shown(one: Place, other: Place) -> (Member, Member) {
    if is_valid(one) && is_valid(other) {
        return join_evidence(one, other);
    }
    (Member::Whole, Member::Whole)
}
