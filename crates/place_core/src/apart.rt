ghost use Rattle.std.specs.Prelude.{◌≡◌, ◌↔◌, IsTrue, Some};
ghost use Rattle.place_core.specs.declared.prefix.Prefix.TheVariants as prefix;
ghost use Rattle.place_core.specs.place.ApartPlaces.{ArePlacesApart, HasApart, opened_apart, beginning_at};
ghost use Rattle.place_core.specs.place.ApartPlaces.{beginning_in_body, beginning_in_css, spell_apart};

use crate::body::Body;
use crate::css::Css;
use crate::joining::same_prefix;
use crate::place::Place;
use crate::prefix::Prefix;

/// Whether two of the paths that a place stands for met apart: both were in the beginning of a URL, and it spelled different
/// things. Does not allocate.
pub fn has_apart(place: Place) -> bool
    ensures { IsTrue result ↔ HasApart place }
{
    differs(opened(place))
}

/// Whether two places are apart, at neither of which two paths met apart: in the beginning of a URL that spells different things.
/// Does not allocate.
pub fn spells_apart(one: Place, other: Place) -> bool
    ensures { IsTrue result ↔ ArePlacesApart one other }
{
    are_apart(opened(one), opened(other))
}

// What the beginning of a URL spells at a place, where paths are in one.
fn opened(place: Place) -> Option<Prefix>
    ensures { result ≡ beginning_at place }
{
    match place {
        Place::Value(value) => in_body(value.body),
        Place::Style(css) => in_css(css),
        _ => None,
    }
}

fn in_body(body: Body) -> Option<Prefix>
    ensures { result ≡ beginning_in_body body }
{
    match body {
        Body::Url(parts) => parts.opened,
        Body::Css(css) => in_css(css),
        Body::Plain | Body::NoHole | Body::Js(_) => None,
    }
}

fn in_css(css: Css) -> Option<Prefix>
    ensures { result ≡ beginning_in_css css }
{
    match css {
        Css::Url(parts) | Css::UrlDq(parts) | Css::UrlSq(parts) => parts.opened,
        _ => None,
    }
}

fn differs(opened: Option<Prefix>) -> bool
    ensures { IsTrue result ↔ (opened ≡ Some prefix.Differs) }
{
    match opened {
        Some(Prefix::Differs) => true,
        _ => false,
    }
}

fn are_apart(one: Option<Prefix>, other: Option<Prefix>) -> bool
    ensures { result ≡ opened_apart one other }
{
    match (one, other) {
        (Some(one), Some(other)) => differ(one, other),
        _ => false,
    }
}

fn differ(one: Prefix, other: Prefix) -> bool
    ensures { result ≡ spell_apart one other }
{
    match (one, other) {
        (Prefix::Differs, _) => false,
        (_, Prefix::Differs) => false,
        _ => !same_prefix(one, other),
    }
}
