ghost use Rattle.std.specs.Prelude.{◌≡◌, ◌↔◌, ◌||◌, IsTrue};
ghost use Rattle.place_core.specs.place.Places.{bare_has, body_has, part_has, quotes_have, spots_have, Has};
ghost use Rattle.place_core.specs.place.LanguagePlaces.{css_has, css_tails_have, js_has, js_tails_have, parts_have, senses_have};
ghost use Rattle.place_core.specs.place.Places as spec;

use crate::bare::Bare;
use crate::body::Body;
use crate::css::Css;
use crate::css_tails::CssTails;
use crate::js::Js;
use crate::js_tails::JsTails;
use crate::member::Member;
use crate::parts::Parts;
use crate::place::Place;
use crate::quotes::Quotes;
use crate::senses::Senses;
use crate::spots::Spots;

/// Whether two places are the same.
pub fn same(a: Place, b: Place) -> bool
    ensures { IsTrue result ↔ (a ≡ b) }
{
    a == b
}

/// Whether a place has a member.
pub fn has(place: Place, member: Member) -> bool
    ensures { IsTrue result ↔ Has place member }
{
    bears(place, member)
}

fn bears(place: Place, member: Member) -> bool
    ensures { result ≡ (spec.is_whole member || part_has place member) }
{
    is_whole(member) || bears_part(place, member)
}

fn is_whole(member: Member) -> bool
    ensures { result ≡ spec.is_whole member }
{
    match member {
        Member::Whole => true,
        _ => false,
    }
}

fn bears_part(place: Place, member: Member) -> bool
    ensures { result ≡ part_has place member }
{
    match place {
        Place::Comment(dash) => match member {
            Member::CommentDash => dash,
            _ => false,
        },
        Place::Tag(x) => match member {
            Member::Typed => x.typed,
            _ => spots(x.spots, member),
        },
        Place::Value(x) => match member {
            Member::Typed => x.typed,
            _ => quotes(x.quotes, member) || body(x.body, member),
        },
        Place::Script(j) => js(j, member),
        Place::Style(c) => css(c, member),
        Place::Block(lt) => match member {
            Member::BlockLt => lt,
            _ => false,
        },
        _ => false,
    }
}

fn spots(s: Spots, member: Member) -> bool
    ensures { result ≡ spots_have s member }
{
    match member {
        Member::NameSpot => s.name,
        Member::BeforeSpot => s.before,
        Member::InsideSpot => s.inside,
        Member::AfterSpot => s.after,
        _ => false,
    }
}

fn bare(s: Bare, member: Member) -> bool
    ensures { result ≡ bare_has s member }
{
    match member {
        Member::UnquotedValue => s.uq,
        Member::UnbegunValue => s.unbegun,
        _ => false,
    }
}

fn senses(s: Senses, member: Member) -> bool
    ensures { result ≡ senses_have s member }
{
    match member {
        Member::SenseRe => s.re,
        Member::SenseDiv => s.div,
        Member::SenseBrace => s.brace,
        _ => false,
    }
}

fn js_tails(s: JsTails, member: Member) -> bool
    ensures { result ≡ js_tails_have s member }
{
    match member {
        Member::JsWord => s.word,
        Member::JsNum => s.num,
        Member::JsLt => s.lt,
        Member::JsSlash => s.slash,
        Member::JsPlus => s.plus,
        Member::JsMinus => s.minus,
        Member::JsHash => s.hash,
        _ => false,
    }
}

fn css_tails(s: CssTails, member: Member) -> bool
    ensures { result ≡ css_tails_have s member }
{
    match member {
        Member::CssWord => s.word,
        Member::CssSlash => s.slash,
        Member::CssLt => s.lt,
        _ => false,
    }
}

fn parts(s: Parts, member: Member) -> bool
    ensures { result ≡ parts_have s member }
{
    match member {
        Member::PartStart => s.start,
        Member::PartOpen => s.opened.is_some(),
        Member::PartOpenhole => s.openhole,
        Member::PartPrequery => s.prequery,
        Member::PartQuery => s.query,
        Member::PartBad => s.bad,
        _ => false,
    }
}

fn js(j: Js, member: Member) -> bool
    ensures { result ≡ js_has j member }
{
    match j {
        Js::Code(s, x) => senses(s, member) || js_tails(x, member),
        Js::Regexp(slash) => match member {
            Member::RegexpSlash => slash,
            _ => false,
        },
        Js::Line(s) => senses(s, member),
        Js::Block(s, star) => match member {
            Member::JsStar => star,
            _ => senses(s, member),
        },
        _ => false,
    }
}

fn css(c: Css, member: Member) -> bool
    ensures { result ≡ css_has c member }
{
    match c {
        Css::Code(x) => css_tails(x, member),
        Css::Url(s) => parts(s, member),
        Css::UrlDq(s) => parts(s, member),
        Css::UrlSq(s) => parts(s, member),
        Css::Comment(star) => match member {
            Member::CssStar => star,
            _ => false,
        },
        _ => false,
    }
}

fn quotes(q: Quotes, member: Member) -> bool
    ensures { result ≡ quotes_have q member }
{
    match q {
        Quotes::Bare(s) => bare(s, member),
        _ => false,
    }
}

fn body(b: Body, member: Member) -> bool
    ensures { result ≡ body_has b member }
{
    match b {
        Body::Url(s) => parts(s, member),
        Body::Js(j) => js(j, member),
        Body::Css(c) => css(c, member),
        _ => false,
    }
}
