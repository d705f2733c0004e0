ghost use Rattle.std.specs.Prelude.{◌≡◌};
ghost use Rattle.place_show.specs.Unknown as spec;

use place_core::{Body, Css, Parts, Place, Prefix, ValuePlace};

/// A place in the beginning of a URL, as if two of its paths had met apart, so that it is not known what the beginning spells. None where
/// no path is in the beginning. Does not allocate.
pub(crate) fn unknown(place: Place) -> Option<Place>
    ensures { result ≡ spec.unknown_place place }
{
    match place {
        Place::Value(value) => match in_body(value.body) {
            Some(body) => Some(Place::Value(ValuePlace { body, ..value })),
            None => None,
        },
        Place::Style(css) => match in_style(css) {
            Some(css) => Some(Place::Style(css)),
            None => None,
        },
        _ => None,
    }
}

fn in_body(body: Body) -> Option<Body>
    ensures { result ≡ spec.unknown_body body }
{
    match body {
        Body::Url(parts) => match in_parts(parts) {
            Some(parts) => Some(Body::Url(parts)),
            None => None,
        },
        Body::Css(css) => match in_style(css) {
            Some(css) => Some(Body::Css(css)),
            None => None,
        },
        Body::Plain | Body::NoHole | Body::Js(_) => None,
    }
}

// In a style, of the URL of a url token.
fn in_style(css: Css) -> Option<Css>
    ensures { result ≡ spec.unknown_css css }
{
    match css {
        Css::Url(parts) => match in_parts(parts) {
            Some(parts) => Some(Css::Url(parts)),
            None => None,
        },
        Css::UrlDq(parts) => match in_parts(parts) {
            Some(parts) => Some(Css::UrlDq(parts)),
            None => None,
        },
        Css::UrlSq(parts) => match in_parts(parts) {
            Some(parts) => Some(Css::UrlSq(parts)),
            None => None,
        },
        _ => None,
    }
}

fn in_parts(parts: Parts) -> Option<Parts>
    ensures { result ≡ spec.unknown_parts parts parts.opened }
{
    match parts.opened {
        Some(_) => Some(Parts {
            opened: Some(Prefix::Differs),
            ..parts
        }),
        None => None,
    }
}
