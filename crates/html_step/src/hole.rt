ghost use Rattle.std.specs.Prelude.{◌≡◌, ◌||◌};
ghost use Rattle.css_step.specs.StyleChains.{style_hole_with_chain};
ghost use Rattle.css_step.specs.StyleScanViews.{style_hole_answer};
ghost use Rattle.url_step.specs.PartSets.{hole_answer};
ghost use Rattle.html_step.specs.Holes as spec;
ghost use Rattle.place_core.specs.declared.place.Place.TheVariants as places;

use html_scan::{BEGUN, INSIDE};
use place_core::{
    Body, Chain, Code, Css, Js, Kind, Parts, Place, Quotes, San, TagPlace, ValuePlace,
};
use url_step::at_hole;

/// What is done to a value of data at a place, and the place after it; or why no value may stand there. (HTML Standard, section
/// 13.2.5; Go's `html/template`.) The causes:
///
/// - `BadHTML`: in a doctype, and in an attribute in which no value of data may stand; in a URL behind a scheme that is code, as
///   `javascript:`.
/// - `SplitToken`: in the name of a tag or of an attribute, which the value would go on with; in a data block, after a text that
///   ends in `<`.
/// - `AmbigContext`: in a URL where some paths are in one part of it and some in another, as before a `?` and behind one: no one
///   chain of sanitizers fits all.
/// - `BadString`: in a style, behind the URL of a `url(`.
///
/// Does not allocate.
pub fn after_hole(place: Place) -> Result<(Place, Chain), Code>
    ensures { result ≡ spec.after_hole place }
{
    match place {
        Place::Text | Place::Rcdata(_) => Ok((place, only(San::Html))),
        Place::Comment(_) => Ok((place, only(San::Drop))),
        Place::Doctype => Err(Code::BadHTML),
        Place::Tag(tag) => named_by_data(tag.spots.name || tag.spots.inside, tag),
        Place::Value(value) => in_value(value),
        Place::Block(less) => in_block(less),
        Place::Style(css) => in_element(css),
        Place::Script(js) => Ok(in_script_element(js)),
    }
}

// In the element `style`, without a sanitizer of quotes.
fn in_element(css: Css) -> Result<(Place, Chain), Code>
    ensures { result ≡ spec.element_holed (style_hole_with_chain css (style_hole_answer css)) }
{
    let (after, chain) = css_step::after_hole(css)?;
    Ok((Place::Style(after), chain))
}

// In the element `script`, without a sanitizer of quotes.
fn in_script_element(js: Js) -> (Place, Chain)
    ensures { Ok result ≡ spec.after_hole (places.Script js) }
{
    (
        Place::Script(js_step::at_hole(js)),
        only(js_step::sanitizer(js)),
    )
}

// In a data block: where a text has ended in `<`, the value would go on with it.
fn in_block(less: bool) -> Result<(Place, Chain), Code>
    ensures { result ≡ spec.block_hole less }
{
    if less {
        return Err(Code::SplitToken);
    }
    Ok((Place::Block(false), only(San::Html)))
}

// In a tag: the value is the name of an attribute, or would go on with one.
fn named_by_data(goes_on: bool, place: TagPlace) -> Result<(Place, Chain), Code>
    ensures { result ≡ spec.named_by_data goes_on place }
{
    if goes_on {
        return Err(Code::SplitToken);
    }
    let named = Place::Tag(TagPlace {
        tag: place.tag,
        typed: place.typed,
        spots: INSIDE,
        kind: Some(Kind::Plain),
    });
    Ok((named, only(San::AttrName)))
}

fn in_value(place: ValuePlace) -> Result<(Place, Chain), Code>
    ensures { result ≡ spec.value_hole place.body place }
{
    match place.body {
        Body::Plain => in_plain_value(place),
        Body::NoHole => Err(Code::BadHTML),
        Body::Url(parts) => in_url(place, parts),
        Body::Css(css) => in_style(place, css),
        Body::Js(js) => Ok(in_script(place, js)),
    }
}

// In a URL where all paths are in one part of it; without quotes, the value has begun.
fn in_url(place: ValuePlace, parts: Parts) -> Result<(Place, Chain), Code>
    ensures { result ≡ spec.url_holed place parts (hole_answer parts) }
{
    let after = at_hole(parts)?;
    let holed = Place::Value(ValuePlace {
        quotes: holed_quotes(place.quotes),
        body: Body::Url(after),
        ..place
    });
    Ok((holed, url_chain(parts, last_of(place.quotes))))
}

// In a style; without quotes, the value has begun.
fn in_style(place: ValuePlace, css: Css) -> Result<(Place, Chain), Code>
    ensures { result ≡ spec.css_holed place css (style_hole_answer css) }
{
    let after = css_step::at_hole(css)?;
    let holed = Place::Value(ValuePlace {
        quotes: holed_quotes(place.quotes),
        body: Body::Css(after),
        ..place
    });
    Ok((holed, css_chain(css, last_of(place.quotes))))
}

// In a script; without quotes, the value has begun.
fn in_script(place: ValuePlace, js: Js) -> (Place, Chain)
    ensures { Ok result ≡ spec.js_holed place js }
{
    let holed = Place::Value(ValuePlace {
        quotes: holed_quotes(place.quotes),
        body: Body::Js(js_step::at_hole(js)),
        ..place
    });
    (
        holed,
        both_of(js_step::sanitizer(js), last_of(place.quotes)),
    )
}

fn css_chain(css: Css, last: San) -> Chain
    ensures { result ≡ spec.css_chain css last }
{
    match css {
        Css::Code(_) => both_of(San::CssValue, last),
        Css::Dq | Css::Sq => both_of(San::CssString, last),
        Css::UrlFresh => all_of(San::UrlFilter, San::UrlNorm, last),
        Css::Url(parts) => url_chain(parts, last),
        Css::UrlDq(parts) => url_chain(parts, last),
        Css::UrlSq(parts) => url_chain(parts, last),
        Css::UrlEnd | Css::Comment(_) => both_of(San::Drop, last),
    }
}

fn holed_quotes(quotes: Quotes) -> Quotes
    ensures { result ≡ spec.holed_quotes quotes }
{
    match quotes {
        Quotes::Dq | Quotes::Sq => quotes,
        Quotes::Bare(_) => BEGUN,
    }
}

// The last sanitizer of a chain, by the quotes of the value.
fn last_of(quotes: Quotes) -> San
    ensures { result ≡ spec.last_of quotes }
{
    match quotes {
        Quotes::Dq | Quotes::Sq => San::Attr,
        Quotes::Bare(_) => San::AttrNospace,
    }
}

// The chain of the part of a URL: only where the value is the first of it may it choose a scheme.
fn url_chain(parts: Parts, last: San) -> Chain
    ensures { result ≡ spec.url_chain parts last }
{
    if parts.start {
        return all_of(San::UrlFilter, San::UrlNorm, last);
    }
    if parts.prequery {
        return both_of(San::UrlNorm, last);
    }
    if parts.query {
        return both_of(San::UrlQuery, last);
    }
    both_of(San::UrlOpen, last)
}

// In a value that is read as text; without quotes, the value has begun.
fn in_plain_value(place: ValuePlace) -> Result<(Place, Chain), Code>
    ensures { result ≡ spec.plain_hole place.quotes place }
{
    match place.quotes {
        Quotes::Dq | Quotes::Sq => Ok((Place::Value(place), only(San::Attr))),
        Quotes::Bare(_) => {
            let begun = Place::Value(ValuePlace {
                quotes: BEGUN,
                ..place
            });
            Ok((begun, only(San::AttrNospace)))
        }
    }
}

fn only(san: San) -> Chain
    ensures { result ≡ spec.only san }
{
    Chain {
        count: 1,
        sans: [san; 3],
    }
}

fn both_of(first: San, second: San) -> Chain
    ensures { result ≡ spec.both_of first second }
{
    Chain {
        count: 2,
        sans: [first, second, second],
    }
}

fn all_of(first: San, second: San, third: San) -> Chain
    ensures { result ≡ spec.all_of first second third }
{
    Chain {
        count: 3,
        sans: [first, second, third],
    }
}
