ghost use Rattle.std.specs.Prelude.{◌≡◌, ◌↔◌, IsTrue};
ghost use Rattle.place_core.specs.place.Places.{IsValid, IsValidBody, IsValidQuotes, IsValidTag};
ghost use Rattle.place_core.specs.place.LanguagePlaces.{IsSpelled, IsValidCss, IsValidJs, IsValidParts};
ghost use Rattle.place_core.specs.place.Places as spec;
ghost use Rattle.place_core.specs.place.LanguagePlaces as languages;

use crate::bare::Bare;
use crate::body::Body;
use crate::css::Css;
use crate::element::Element;
use crate::js::Js;
use crate::parts::Parts;
use crate::place::Place;
use crate::prefix::Prefix;
use crate::quotes::Quotes;
use crate::senses::Senses;
use crate::spots::Spots;
use crate::tag_place::TagPlace;

/// Whether a place is valid; paths come to no others. Each of its sets has a member, but for those of what a text ended in; a kind
/// stands exactly where the place may be in or after an attribute's name; and where the beginning of a URL spells letters of
/// `javascript`, `vbscript` or `data`, these are at least one and at most all.
pub fn is_valid(place: Place) -> bool
    ensures { IsTrue result ↔ IsValid place }
{
    match place {
        Place::Text | Place::Doctype | Place::Comment(_) | Place::Block(_) => true,
        Place::Rcdata(element) => is_rcdata(element),
        Place::Tag(tag) => is_valid_tag(tag),
        Place::Value(value) => is_valid_quotes(value.quotes) && is_valid_body(value.body),
        Place::Script(js) => is_valid_js(js),
        Place::Style(css) => is_valid_css(css),
    }
}

fn is_rcdata(element: Element) -> bool
    ensures { result ≡ spec.is_rcdata element }
{
    match element {
        Element::Title | Element::Textarea => true,
        _ => false,
    }
}

fn is_valid_tag(place: TagPlace) -> bool
    ensures { IsTrue result ↔ IsValidTag place }
{
    let named = place.spots.inside || place.spots.after;
    some_spot(place.spots) && place.kind.is_some() == named
}

fn is_valid_quotes(quotes: Quotes) -> bool
    ensures { IsTrue result ↔ IsValidQuotes quotes }
{
    match quotes {
        Quotes::Dq | Quotes::Sq => true,
        Quotes::Bare(bare) => some_bare(bare),
    }
}

fn is_valid_body(body: Body) -> bool
    ensures { IsTrue result ↔ IsValidBody body }
{
    match body {
        Body::Plain | Body::NoHole => true,
        Body::Url(parts) => is_valid_url(parts),
        Body::Js(js) => is_valid_js(js),
        Body::Css(css) => is_valid_css(css),
    }
}

fn is_valid_js(js: Js) -> bool
    ensures { IsTrue result ↔ IsValidJs js }
{
    match js {
        Js::Code(senses, _) | Js::Line(senses) | Js::Block(senses, _) => some_sense(senses),
        Js::Dq | Js::Sq | Js::Regexp(_) => true,
    }
}

fn is_valid_css(css: Css) -> bool
    ensures { IsTrue result ↔ IsValidCss css }
{
    match css {
        Css::Url(parts) | Css::UrlDq(parts) | Css::UrlSq(parts) => is_valid_url(parts),
        _ => true,
    }
}

fn is_valid_url(parts: Parts) -> bool
    ensures { IsTrue result ↔ IsValidParts parts }
{
    some_part(parts) && is_spelled(parts.opened)
}

// Where the beginning of a URL spells letters of a word, it is at least one of them, and at most all.
fn is_spelled(prefix: Option<Prefix>) -> bool
    ensures { IsTrue result ↔ IsSpelled prefix }
{
    match prefix {
        Some(Prefix::Javascript(letters)) => 1 <= letters && letters <= 10,
        Some(Prefix::Vbscript(letters)) => 1 <= letters && letters <= 8,
        Some(Prefix::DataScheme(letters)) => 1 <= letters && letters <= 4,
        Some(Prefix::Off | Prefix::Differs) | None => true,
    }
}

fn some_spot(s: Spots) -> bool
    ensures { result ≡ spec.some_spot s }
{
    s.name || s.before || s.inside || s.after
}

fn some_bare(s: Bare) -> bool
    ensures { result ≡ spec.some_bare s }
{
    s.uq || s.unbegun
}

fn some_sense(s: Senses) -> bool
    ensures { result ≡ languages.some_sense s }
{
    s.re || s.div || s.brace
}

fn some_part(s: Parts) -> bool
    ensures { result ≡ languages.some_part s }
{
    s.start || s.opened.is_some() || s.openhole || s.prequery || s.query || s.bad
}
