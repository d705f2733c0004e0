ghost use Rattle.std.specs.Prelude.{◌≡◌, option_map};
ghost use Rattle.css_lexer.specs.Classes.{style_class};
ghost use Rattle.css_lexer.specs.Refusals.{refuses_ended, refuses_solidus, refuses_split};
ghost use Rattle.css_lexer.specs.Refusals.{refuses_string};
ghost use Rattle.css_step.specs.StyleScanViews.{style_escape_at, style_quote_at};
ghost use Rattle.css_step.specs.StyleScanViews.{style_scan_at};
ghost use Rattle.css_step.specs.StyleScans.{style_bare_error, style_fresh_error};
ghost use Rattle.css_step.specs.StyleScans.{style_quoted_error, style_scan_error};
ghost use Rattle.css_step.specs.StyleScans.{style_tails_error, style_url_error};
ghost use Rattle.place_core.specs.page.Tags.{style_code};

use crate::scan::{StyleEscape, StyleQuote, StyleScan, URL_START};
use crate::text::is_taken;
use css_lexer::{StyleClass, class_of};
use place_core::{Code, CssTails, Parts};

// A byte behind what the paths ended in.
fn behind_tails(tails: CssTails, class: StyleClass) -> Option<Code>
    ensures { result ≡ option_map style_code (style_tails_error tails class) }
{
    match class {
        StyleClass::Asterisk if tails.slash => Some(Code::SplitToken),
        StyleClass::Solidus if tails.lt => Some(Code::SplitToken),
        StyleClass::LeftParenthesis if tails.word => Some(Code::SplitToken),
        _ => None,
    }
}

// In an escape of a word from before the text.
fn in_split(escape: StyleEscape, class: StyleClass) -> Option<Code>
    ensures { result ≡ option_map style_code (refuses_split (style_escape_at escape) class) }
{
    match (escape, class) {
        (StyleEscape::Backslash, _) => None,
        (_, StyleClass::LeftParenthesis) => Some(Code::SplitToken),
        _ => None,
    }
}

// In a comment, where some path has a `*` before the text.
fn behind_star(class: StyleClass) -> Option<Code>
    ensures { result ≡ option_map style_code (refuses_solidus class) }
{
    match class {
        StyleClass::Solidus => Some(Code::SplitToken),
        _ => None,
    }
}

// In a string.
fn in_string(taken: bool, class: StyleClass) -> Option<Code>
    ensures { result ≡ option_map style_code (refuses_string taken class) }
{
    match (taken, class) {
        (false, StyleClass::Newline) => Some(Code::BadString),
        _ => None,
    }
}

// In a URL, as its own language says.
fn in_url(parts: Parts, byte: u8) -> Option<Code>
    ensures { result ≡ option_map style_code (style_url_error parts byte) }
{
    url_step::refused(parts, byte)
}

// In a URL without quotes.
fn in_bare(parts: Parts, class: StyleClass, byte: u8) -> Option<Code>
    ensures { result ≡ option_map style_code
        (style_bare_error (style_url_error parts byte) class) }
{
    match class {
        StyleClass::Blank | StyleClass::Newline | StyleClass::RightParenthesis => None,
        StyleClass::QuotationMark
        | StyleClass::Apostrophe
        | StyleClass::LeftParenthesis
        | StyleClass::ReverseSolidus => Some(Code::BadString),
        _ => in_url(parts, byte),
    }
}

// After `url(`.
fn in_fresh(parts: Parts, class: StyleClass, byte: u8) -> Option<Code>
    ensures { result ≡ option_map style_code
        (style_fresh_error (style_url_error parts byte) class) }
{
    match class {
        StyleClass::QuotationMark | StyleClass::Apostrophe => None,
        _ => in_bare(parts, class, byte),
    }
}

// In a URL in quotes.
fn in_quoted(
    taken: bool,
    quote: StyleQuote,
    parts: Parts,
    class: StyleClass,
    byte: u8,
) -> Option<Code>
    ensures { result ≡ option_map style_code (style_quoted_error (style_url_error parts byte)
        taken (style_quote_at quote) class) }
{
    match (taken, quote, class) {
        (true, _, _) => in_url(parts, byte),
        (false, StyleQuote::Double, StyleClass::QuotationMark)
        | (false, StyleQuote::Single, StyleClass::Apostrophe) => None,
        (false, _, StyleClass::Newline) => Some(Code::BadString),
        _ => in_url(parts, byte),
    }
}

// After a URL.
fn behind_url(class: StyleClass) -> Option<Code>
    ensures { result ≡ option_map style_code (refuses_ended class) }
{
    match class {
        StyleClass::Blank | StyleClass::Newline | StyleClass::RightParenthesis => None,
        _ => Some(Code::BadString),
    }
}

/// Why a byte of text is refused, where it is.
pub fn refused(scan: StyleScan, byte: u8) -> Option<Code>
    ensures { result ≡ option_map style_code
        (style_scan_error (style_scan_at scan) (style_class byte) byte) }
{
    let class = class_of(byte);
    match scan {
        StyleScan::Code(tails) => behind_tails(tails, class),
        StyleScan::SplitEscape(escape) => in_split(escape, class),
        StyleScan::StarBefore => behind_star(class),
        StyleScan::InString(_, escape) => in_string(is_taken(escape, byte), class),
        StyleScan::Fresh => in_fresh(URL_START, class, byte),
        StyleScan::BareUrl(parts, _) => in_bare(parts, class, byte),
        StyleScan::QuotedUrl(quote, escape, parts, _) => {
            in_quoted(is_taken(escape, byte), quote, parts, class, byte)
        }
        StyleScan::Ended => behind_url(class),
        StyleScan::Word(_, _) | StyleScan::Solidus | StyleScan::LessThan | StyleScan::Comment(_) =>
            None,
    }
}
