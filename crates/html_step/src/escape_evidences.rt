ghost use Rattle.std.specs.Prelude.{◌≡◌, false};
ghost use Rattle.place_core.specs.place.Places.{IsValid};
ghost use Rattle.html_step.specs.HoleLaws.{IsEscapeEvidence};
ghost use Rattle.html_step.specs.HoleOrigins.{body_shows, css_shows, escape_shows, parts_show, query_shows};
ghost use Rattle.html_step.specs.Holes as spec;

use crate::escaper::Escaper;
use place_core::{Body, Css, Member, Parts, Place};

/// A member of a place that shows that an escaper may not be named there: it may not at any valid place below that has the member, and so
/// on no path that bears it. Where it may be named the answer says nothing. Does not allocate.
pub fn escape_evidence(place: Place, escaper: Escaper) -> Member
    requires valid { IsValid place }
    ensures { spec.may_escape place escaper ≡ false → IsEscapeEvidence place escaper result }
{
    evidence(place, escaper)
}

fn evidence(place: Place, escaper: Escaper) -> Member
    ensures { result ≡ escape_shows place escaper }
{
    match escaper {
        Escaper::Html => Member::Whole,
        Escaper::Urlquery => at_place(place),
    }
}

// Why a value is not in the query of a URL alone.
fn at_place(place: Place) -> Member
    ensures { result ≡ query_shows place }
{
    match place {
        Place::Value(value) => in_body(value.body),
        Place::Style(css) => in_css(css),
        _ => Member::Whole,
    }
}

fn in_body(body: Body) -> Member
    ensures { result ≡ body_shows body }
{
    match body {
        Body::Url(parts) => in_url(parts),
        Body::Css(css) => in_css(css),
        _ => Member::Whole,
    }
}

fn in_css(css: Css) -> Member
    ensures { result ≡ css_shows css }
{
    match css {
        Css::Url(parts) | Css::UrlDq(parts) | Css::UrlSq(parts) => in_url(parts),
        _ => Member::Whole,
    }
}

// The first part of a URL that is not its query.
fn in_url(parts: Parts) -> Member
    ensures { result ≡ parts_show parts }
{
    if parts.start {
        return Member::PartStart;
    }
    if parts.opened.is_some() {
        return Member::PartOpen;
    }
    if parts.openhole {
        return Member::PartOpenhole;
    }
    if parts.prequery {
        return Member::PartPrequery;
    }
    if parts.bad {
        return Member::PartBad;
    }
    Member::Whole
}
