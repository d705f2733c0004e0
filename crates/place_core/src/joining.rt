ghost use Rattle.std.specs.Prelude.{◌≡◌};
ghost use Rattle.place_core.specs.place.Places.{joined, joined_bodies, joined_elements, joined_kinds};
ghost use Rattle.place_core.specs.place.LanguagePlaces.{joined_css, joined_js};
ghost use Rattle.place_core.specs.place.Places.{joined_quotes, joined_tag_places, joined_tags, joined_value_places};
ghost use Rattle.place_core.specs.place.Places as spec;
ghost use Rattle.place_core.specs.place.LanguagePlaces as languages;

use crate::bare::Bare;
use crate::body::Body;
use crate::css::Css;
use crate::css_tails::CssTails;
use crate::element::Element;
use crate::js::Js;
use crate::js_tails::JsTails;
use crate::kind::Kind;
use crate::parts::Parts;
use crate::place::Place;
use crate::prefix::Prefix;
use crate::quotes::Quotes;
use crate::senses::Senses;
use crate::spots::Spots;
use crate::tag_of::TagOf;
use crate::tag_place::TagPlace;
use crate::value_place::ValuePlace;

/// The place that stands for what two places stand for, where there is one. Two places join where they are the same but for what
/// is one of several: sets are united, a truth value is true where one of both is, a kind joins none, and two different
/// beginnings of a URL become `Prefix::Differs`. The answer is the least place above both, and where there is none, two members
/// show that no place is above both.
pub fn join(a: Place, b: Place) -> Option<Place>
    ensures { result ≡ joined a b }
{
    match (a, b) {
        (Place::Text, Place::Text) => Some(Place::Text),
        (Place::Doctype, Place::Doctype) => Some(Place::Doctype),
        (Place::Comment(x), Place::Comment(y)) => Some(Place::Comment(x || y)),
        (Place::Rcdata(e), Place::Rcdata(f)) => match join_elements(e, f) {
            Some(element) => Some(Place::Rcdata(element)),
            None => None,
        },
        (Place::Tag(x), Place::Tag(y)) => match join_tag_places(x, y) {
            Some(place) => Some(Place::Tag(place)),
            None => None,
        },
        (Place::Value(x), Place::Value(y)) => match join_value_places(x, y) {
            Some(place) => Some(Place::Value(place)),
            None => None,
        },
        (Place::Script(i), Place::Script(j)) => match join_js(i, j) {
            Some(js) => Some(Place::Script(js)),
            None => None,
        },
        (Place::Style(c), Place::Style(d)) => match join_css(c, d) {
            Some(css) => Some(Place::Style(css)),
            None => None,
        },
        (Place::Block(x), Place::Block(y)) => Some(Place::Block(x || y)),
        _ => None,
    }
}

fn both_spots(s: Spots, t: Spots) -> Spots
    ensures { result ≡ spec.both_spots s t }
{
    Spots {
        name: s.name || t.name,
        before: s.before || t.before,
        inside: s.inside || t.inside,
        after: s.after || t.after,
    }
}

fn both_bare(s: Bare, t: Bare) -> Bare
    ensures { result ≡ spec.both_bare s t }
{
    Bare {
        uq: s.uq || t.uq,
        unbegun: s.unbegun || t.unbegun,
    }
}

fn both_senses(s: Senses, t: Senses) -> Senses
    ensures { result ≡ languages.both_senses s t }
{
    Senses {
        re: s.re || t.re,
        div: s.div || t.div,
        brace: s.brace || t.brace,
    }
}

fn both_js_tails(s: JsTails, t: JsTails) -> JsTails
    ensures { result ≡ languages.both_js_tails s t }
{
    JsTails {
        word: s.word || t.word,
        num: s.num || t.num,
        lt: s.lt || t.lt,
        slash: s.slash || t.slash,
        plus: s.plus || t.plus,
        minus: s.minus || t.minus,
        hash: s.hash || t.hash,
    }
}

fn both_css_tails(s: CssTails, t: CssTails) -> CssTails
    ensures { result ≡ languages.both_css_tails s t }
{
    CssTails {
        word: s.word || t.word,
        slash: s.slash || t.slash,
        lt: s.lt || t.lt,
    }
}

pub(crate) fn same_prefix(p: Prefix, q: Prefix) -> bool
    ensures { result ≡ languages.same_prefix p q }
{
    match (p, q) {
        (Prefix::Off, Prefix::Off) => true,
        (Prefix::Javascript(n), Prefix::Javascript(m)) => n == m,
        (Prefix::Vbscript(n), Prefix::Vbscript(m)) => n == m,
        (Prefix::DataScheme(n), Prefix::DataScheme(m)) => n == m,
        (Prefix::Differs, Prefix::Differs) => true,
        _ => false,
    }
}

fn both_prefixes(p: Option<Prefix>, q: Option<Prefix>) -> Option<Prefix>
    ensures { result ≡ languages.both_prefixes p q }
{
    match (p, q) {
        (None, _) => q,
        (Some(_), None) => p,
        (Some(one), Some(other)) => if same_prefix(one, other) {
            Some(one)
        } else {
            Some(Prefix::Differs)
        },
    }
}

fn both_parts(s: Parts, t: Parts) -> Parts
    ensures { result ≡ languages.both_parts s t }
{
    Parts {
        start: s.start || t.start,
        opened: both_prefixes(s.opened, t.opened),
        openhole: s.openhole || t.openhole,
        prequery: s.prequery || t.prequery,
        query: s.query || t.query,
        bad: s.bad || t.bad,
    }
}

fn same_element(e: Element, f: Element) -> bool
    ensures { result ≡ spec.same_element e f }
{
    match (e, f) {
        (Element::Other, Element::Other) => true,
        (Element::Title, Element::Title) => true,
        (Element::Textarea, Element::Textarea) => true,
        (Element::Style, Element::Style) => true,
        (Element::Script, Element::Script) => true,
        (Element::DataBlock, Element::DataBlock) => true,
        _ => false,
    }
}

fn same_kind(k: Kind, l: Kind) -> bool
    ensures { result ≡ spec.same_kind k l }
{
    match (k, l) {
        (Kind::Plain, Kind::Plain) => true,
        (Kind::Url, Kind::Url) => true,
        (Kind::Script, Kind::Script) => true,
        (Kind::Style, Kind::Style) => true,
        (Kind::ScriptType, Kind::ScriptType) => true,
        (Kind::NoHole, Kind::NoHole) => true,
        _ => false,
    }
}

fn join_elements(e: Element, f: Element) -> Option<Element>
    ensures { result ≡ joined_elements e f }
{
    if same_element(e, f) { Some(e) } else { None }
}

/// The tag that two tags join to.
pub fn join_tags(t: TagOf, u: TagOf) -> Option<TagOf>
    ensures { result ≡ joined_tags t u }
{
    match (t, u) {
        (TagOf::End, TagOf::End) => Some(TagOf::End),
        (TagOf::Start(e), TagOf::Start(f)) => match join_elements(e, f) {
            Some(element) => Some(TagOf::Start(element)),
            None => None,
        },
        _ => None,
    }
}

fn join_kinds(k: Option<Kind>, l: Option<Kind>) -> Option<Option<Kind>>
    ensures { result ≡ joined_kinds k l }
{
    match (k, l) {
        (None, _) => Some(l),
        (Some(_), None) => Some(k),
        (Some(one), Some(other)) => if same_kind(one, other) {
            Some(Some(one))
        } else {
            None
        },
    }
}

fn join_js(i: Js, j: Js) -> Option<Js>
    ensures { result ≡ joined_js i j }
{
    match (i, j) {
        (Js::Code(s, x), Js::Code(t, y)) => Some(Js::Code(both_senses(s, t), both_js_tails(x, y))),
        (Js::Dq, Js::Dq) => Some(Js::Dq),
        (Js::Sq, Js::Sq) => Some(Js::Sq),
        (Js::Regexp(x), Js::Regexp(y)) => Some(Js::Regexp(x || y)),
        (Js::Line(s), Js::Line(t)) => Some(Js::Line(both_senses(s, t))),
        (Js::Block(s, x), Js::Block(t, y)) => Some(Js::Block(both_senses(s, t), x || y)),
        _ => None,
    }
}

fn join_css(c: Css, d: Css) -> Option<Css>
    ensures { result ≡ joined_css c d }
{
    match (c, d) {
        (Css::Code(x), Css::Code(y)) => Some(Css::Code(both_css_tails(x, y))),
        (Css::Dq, Css::Dq) => Some(Css::Dq),
        (Css::Sq, Css::Sq) => Some(Css::Sq),
        (Css::UrlFresh, Css::UrlFresh) => Some(Css::UrlFresh),
        (Css::Url(s), Css::Url(t)) => Some(Css::Url(both_parts(s, t))),
        (Css::UrlDq(s), Css::UrlDq(t)) => Some(Css::UrlDq(both_parts(s, t))),
        (Css::UrlSq(s), Css::UrlSq(t)) => Some(Css::UrlSq(both_parts(s, t))),
        (Css::UrlEnd, Css::UrlEnd) => Some(Css::UrlEnd),
        (Css::Comment(x), Css::Comment(y)) => Some(Css::Comment(x || y)),
        _ => None,
    }
}

fn join_quotes(q: Quotes, r: Quotes) -> Option<Quotes>
    ensures { result ≡ joined_quotes q r }
{
    match (q, r) {
        (Quotes::Dq, Quotes::Dq) => Some(Quotes::Dq),
        (Quotes::Sq, Quotes::Sq) => Some(Quotes::Sq),
        (Quotes::Bare(s), Quotes::Bare(t)) => Some(Quotes::Bare(both_bare(s, t))),
        _ => None,
    }
}

fn join_bodies(one: Body, other: Body) -> Option<Body>
    ensures { result ≡ joined_bodies one other }
{
    match (one, other) {
        (Body::Plain, Body::Plain) => Some(Body::Plain),
        (Body::NoHole, Body::NoHole) => Some(Body::NoHole),
        (Body::Url(s), Body::Url(t)) => Some(Body::Url(both_parts(s, t))),
        (Body::Js(i), Body::Js(j)) => match join_js(i, j) {
            Some(js) => Some(Body::Js(js)),
            None => None,
        },
        (Body::Css(c), Body::Css(d)) => match join_css(c, d) {
            Some(css) => Some(Body::Css(css)),
            None => None,
        },
        _ => None,
    }
}

fn join_tag_places(x: TagPlace, y: TagPlace) -> Option<TagPlace>
    ensures { result ≡ joined_tag_places x y }
{
    match (join_tags(x.tag, y.tag), join_kinds(x.kind, y.kind)) {
        (Some(tag), Some(kind)) => Some(TagPlace {
            tag,
            typed: x.typed || y.typed,
            spots: both_spots(x.spots, y.spots),
            kind,
        }),
        _ => None,
    }
}

fn join_value_places(x: ValuePlace, y: ValuePlace) -> Option<ValuePlace>
    ensures { result ≡ joined_value_places x y }
{
    match (
        join_tags(x.tag, y.tag),
        join_quotes(x.quotes, y.quotes),
        join_bodies(x.body, y.body),
    ) {
        (Some(tag), Some(quotes), Some(body)) => Some(ValuePlace {
            tag,
            typed: x.typed || y.typed,
            quotes,
            body,
        }),
        _ => None,
    }
}
