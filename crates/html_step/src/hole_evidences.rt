ghost use Rattle.std.specs.Prelude.{◌≡◌, Ok, Err};
ghost use Rattle.place_core.specs.place.Places.{Has, IsValid};
ghost use Rattle.html_step.specs.HoleLaws.{IsHoleOrigin, IsHoleEvidence};
ghost use Rattle.url_step.specs.PartSets.{hole_answer};
ghost use Rattle.html_step.specs.HoleOrigins.{body_hole_origin, css_hole_origin, css_hole_shows, hole_origin, hole_shows, js_hole_origin, part_hole_origin, url_hole_shows, value_hole_shows};
ghost use Rattle.html_step.specs.OriginViews.{evidence_at};
ghost use Rattle.html_step.specs.HoleOrigins as spec;
ghost use Rattle.html_step.specs.Holes as holes;

use crate::evidence::Evidence;
use crate::origins::{in_value_origin, typed_origin};
use place_core::{Body, Chain, Code, Css, Js, Member, Parts, Place, Quotes};
use url_step::at_hole;

/// A member of a place that a member of the place after a hole comes from: every path that bears the one comes to bear the other.
/// Does not allocate.
pub fn hole_from(place: Place, member: Member) -> Member
    requires valid { IsValid place }
    requires accepted { (q : Place) × (c : Chain)
        × (holes.after_hole place ≡ Ok (q, c)) × Has q member }
    ensures { IsHoleOrigin place member result }
{
    origin(place, member)
}

/// What shows that a hole is refused at a place: a member of it, on every path of which the hole is refused by the same code, or two, on
/// any two paths of which it is refused together. Where a hole is accepted the answer says nothing. Does not allocate.
pub fn hole_evidence(place: Place) -> Evidence
    requires valid { IsValid place }
    ensures { (e : Code) → holes.after_hole place ≡ Err e
        → IsHoleEvidence place e (evidence_at result) }
{
    evidence(place)
}

fn origin(place: Place, member: Member) -> Member
    ensures { result ≡ hole_origin place member }
{
    match place {
        Place::Tag(_) => typed_origin(member),
        Place::Value(value) => body_origin(value.body, quotes_origin(value.quotes, member)),
        Place::Style(css) => in_style_origin(css, member),
        Place::Script(js) => in_script_origin(js, member),
        _ => member,
    }
}

fn quotes_origin(quotes: Quotes, member: Member) -> Member
    ensures { result ≡ spec.quotes_origin quotes member }
{
    match quotes {
        Quotes::Dq | Quotes::Sq => member,
        Quotes::Bare(_) => in_value_origin(member),
    }
}

fn body_origin(body: Body, member: Member) -> Member
    ensures { result ≡ body_hole_origin body member }
{
    match body {
        Body::Url(parts) => part_origin(parts, member),
        Body::Css(css) => in_style_origin(css, member),
        Body::Js(js) => in_script_origin(js, member),
        _ => member,
    }
}

// In the code of a script a slash divides on all paths behind a hole.
fn in_script_origin(js: Js, member: Member) -> Member
    ensures { result ≡ js_hole_origin js member }
{
    match (js, member) {
        (Js::Code(_, _), Member::SenseDiv) => Member::Whole,
        _ => member,
    }
}

// In a style all paths are in a word behind a hole, and a URL that has not begun begins with it.
fn in_style_origin(css: Css, member: Member) -> Member
    ensures { result ≡ css_hole_origin css member }
{
    match (css, member) {
        (Css::Code(_), Member::CssWord) | (Css::UrlFresh, Member::PartOpenhole) => Member::Whole,
        (Css::Url(parts) | Css::UrlDq(parts) | Css::UrlSq(parts), _) => part_origin(parts, member),
        _ => member,
    }
}

// In a URL, a path in its beginning behind the hole was in the first of these parts.
fn part_origin(parts: Parts, member: Member) -> Member
    ensures { result ≡ part_hole_origin parts member }
{
    match member {
        Member::PartOpenhole if parts.start => Member::PartStart,
        Member::PartOpenhole if parts.opened.is_some() => Member::PartOpen,
        _ => member,
    }
}

fn evidence(place: Place) -> Evidence
    ensures { evidence_at result ≡ hole_shows place }
{
    match place {
        Place::Tag(tag) if tag.spots.name => Evidence::One(Member::NameSpot),
        Place::Tag(_) => Evidence::One(Member::InsideSpot),
        Place::Value(value) => in_value(value.body),
        Place::Style(css) => in_style(css),
        Place::Block(_) => Evidence::One(Member::BlockLt),
        _ => Evidence::One(Member::Whole),
    }
}

fn in_value(body: Body) -> Evidence
    ensures { evidence_at result ≡ value_hole_shows body }
{
    match body {
        Body::Url(parts) => in_url(parts),
        Body::Css(css) => in_style(css),
        _ => Evidence::One(Member::Whole),
    }
}

// Behind a URL of a style each path is refused.
fn in_style(css: Css) -> Evidence
    ensures { evidence_at result ≡ css_hole_shows css }
{
    match css {
        Css::Url(parts) | Css::UrlDq(parts) | Css::UrlSq(parts) => in_url(parts),
        _ => Evidence::One(Member::Whole),
    }
}

// In a URL several parts are refused together, and else each path behind a scheme that is code.
fn in_url(parts: Parts) -> Evidence
    ensures { evidence_at result ≡ url_hole_shows (hole_answer parts) parts }
{
    match at_hole(parts) {
        Err(Code::AmbigContext) => first_two(parts),
        _ => Evidence::One(Member::PartBad),
    }
}

// The first two parts of several.
fn first_two(parts: Parts) -> Evidence
    ensures { evidence_at result ≡ spec.first_two parts }
{
    if parts.start {
        return Evidence::Two(Member::PartStart, behind_start(parts));
    }
    if parts.opened.is_some() {
        return Evidence::Two(Member::PartOpen, behind_open(parts));
    }
    if parts.openhole {
        return Evidence::Two(Member::PartOpenhole, behind_openhole(parts));
    }
    if parts.prequery {
        return Evidence::Two(Member::PartPrequery, behind_prequery(parts));
    }
    Evidence::Two(Member::PartQuery, Member::PartBad)
}

fn behind_start(parts: Parts) -> Member
    ensures { result ≡ spec.behind_start parts }
{
    if parts.opened.is_some() {
        return Member::PartOpen;
    }
    behind_open(parts)
}

fn behind_open(parts: Parts) -> Member
    ensures { result ≡ spec.behind_open parts }
{
    if parts.openhole {
        return Member::PartOpenhole;
    }
    behind_openhole(parts)
}

fn behind_openhole(parts: Parts) -> Member
    ensures { result ≡ spec.behind_openhole parts }
{
    if parts.prequery {
        return Member::PartPrequery;
    }
    behind_prequery(parts)
}

fn behind_prequery(parts: Parts) -> Member
    ensures { result ≡ spec.behind_prequery parts }
{
    if parts.query {
        return Member::PartQuery;
    }
    Member::PartBad
}
