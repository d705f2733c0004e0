ghost use Rattle.std.specs.Prelude.{◌≡◌};
ghost use Rattle.html_step.specs.Holes as spec;

use crate::escaper::Escaper;
use place_core::{Body, Css, Parts, Place, Quotes};

/// Whether a template may name an escaper at a place: `html` in text, in a title, in a textarea, in a block of data, and in a
/// value with quotes that is read as text; `urlquery` where all paths stand in the query of a URL. (In the manner of Go's
/// `html/template`.) Does not allocate.
pub fn may_escape(place: Place, escaper: Escaper) -> bool
    ensures { result ≡ spec.may_escape place escaper }
{
    match escaper {
        Escaper::Html => as_text(place),
        Escaper::Urlquery => in_query(place),
    }
}

fn as_text(place: Place) -> bool
    ensures { result ≡ spec.as_text place }
{
    match place {
        Place::Text | Place::Rcdata(_) | Place::Block(_) => true,
        Place::Value(value) => plain_text(value.body, value.quotes),
        _ => false,
    }
}

fn plain_text(body: Body, quotes: Quotes) -> bool
    ensures { result ≡ spec.plain_text body quotes }
{
    match (body, quotes) {
        (Body::Plain, Quotes::Dq | Quotes::Sq) => true,
        _ => false,
    }
}

fn in_query(place: Place) -> bool
    ensures { result ≡ spec.in_query place }
{
    match place {
        Place::Value(value) => body_query(value.body),
        Place::Style(css) => css_query(css),
        _ => false,
    }
}

fn body_query(body: Body) -> bool
    ensures { result ≡ spec.body_query body }
{
    match body {
        Body::Url(parts) => is_only_query(parts),
        Body::Css(css) => css_query(css),
        _ => false,
    }
}

fn css_query(css: Css) -> bool
    ensures { result ≡ spec.css_query css }
{
    match css {
        Css::Url(parts) | Css::UrlDq(parts) | Css::UrlSq(parts) => is_only_query(parts),
        _ => false,
    }
}

// Whether all paths stand in the query.
fn is_only_query(parts: Parts) -> bool
    ensures { result ≡ spec.is_only_query parts }
{
    parts.query
        && !parts.start
        && parts.opened.is_none()
        && !parts.openhole
        && !parts.prequery
        && !parts.bad
}
