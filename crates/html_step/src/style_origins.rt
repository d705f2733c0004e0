// Which member before a byte of a style a member behind it comes from.
ghost use Rattle.std.specs.Prelude.{◌≡◌};
ghost use Rattle.css_step.specs.StyleOrigins.{scan_set_has, style_scan_parts};
ghost use Rattle.css_step.specs.StyleScanViews.{style_scan_at};
ghost use Rattle.place_core.specs.place.LanguagePlaces.{css_tails_have, parts_have};
ghost use Rattle.html_step.specs.Origins as spec;

use crate::origins::{part_origin, spells_apart, typed_origin};
use css_step::StyleScan;
use place_core::{CssTails, Member, Parts};

/// The member before a byte that one behind it comes from.
pub fn style_origin(style: StyleScan, byte: u8, member: Member) -> Member
    ensures { result ≡ spec.style_byte_origin (style_scan_at style) byte member }
{
    match member {
        Member::Typed => Member::Typed,
        Member::CssWord => Member::CssWord,
        Member::PartStart
        | Member::PartOpen
        | Member::PartOpenhole
        | Member::PartPrequery
        | Member::PartQuery
        | Member::PartBad => in_url(style_parts(style), byte, member),
        _ => Member::Whole,
    }
}

// A part of a URL, which has begun before the byte or begins with it.
fn in_url(parts: Option<Parts>, byte: u8, member: Member) -> Member
    ensures { result ≡ spec.style_part_origin parts byte member }
{
    match parts {
        Some(parts) => part_origin(parts, byte, member),
        None => Member::Whole,
    }
}

// The parts of the URL in which the paths are.
fn style_parts(style: StyleScan) -> Option<Parts>
    ensures { result ≡ style_scan_parts (style_scan_at style) }
{
    match style {
        StyleScan::BareUrl(parts, _) | StyleScan::QuotedUrl(_, _, parts, _) => Some(parts),
        _ => None,
    }
}

/// Whether paths in the beginning of a URL of a style have spelled different things.
pub fn style_is_apart(style: StyleScan) -> bool
    ensures { result ≡ spec.is_apart (style_scan_parts (style_scan_at style)) }
{
    match style_parts(style) {
        Some(parts) => spells_apart(parts),
        None => false,
    }
}

/// The member before the end of a text that one of the place there comes from.
pub fn style_end_origin(style: StyleScan, member: Member) -> Member
    ensures { result ≡ spec.style_end_origin (style_scan_at style) member }
{
    if has(style, member) {
        return member;
    }
    typed_origin(member)
}

// Whether a scan state has a member in what it keeps as a set.
fn has(style: StyleScan, member: Member) -> bool
    ensures { result ≡ scan_set_has (style_scan_at style) member }
{
    match style {
        StyleScan::Code(tails) => tails_have(tails, member),
        StyleScan::SplitEscape(_) => match member {
            Member::CssWord => true,
            _ => false,
        },
        StyleScan::StarBefore => match member {
            Member::CssStar => true,
            _ => false,
        },
        StyleScan::BareUrl(parts, _) | StyleScan::QuotedUrl(_, _, parts, _) => {
            url_has(parts, member)
        }
        _ => false,
    }
}

fn tails_have(tails: CssTails, member: Member) -> bool
    ensures { result ≡ css_tails_have tails member }
{
    match member {
        Member::CssWord => tails.word,
        Member::CssSlash => tails.slash,
        Member::CssLt => tails.lt,
        _ => false,
    }
}

fn url_has(parts: Parts, member: Member) -> bool
    ensures { result ≡ parts_have parts member }
{
    match member {
        Member::PartStart => parts.start,
        Member::PartOpen => parts.opened.is_some(),
        Member::PartOpenhole => parts.openhole,
        Member::PartPrequery => parts.prequery,
        Member::PartQuery => parts.query,
        Member::PartBad => parts.bad,
        _ => false,
    }
}
