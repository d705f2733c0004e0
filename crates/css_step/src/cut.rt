ghost use Rattle.std.specs.Prelude.{◌≡◌, option_map};
ghost use Rattle.css_lexer.specs.RefusalCodes.{first_refusal};
ghost use Rattle.css_lexer.specs.Refusals.{refuses_in_escape};
ghost use Rattle.css_lexer.specs.Urls.{url_cut_refusal};
ghost use Rattle.css_step.specs.StyleScanViews.{style_cut_at, style_escape_at, style_quote_at};
ghost use Rattle.css_step.specs.StyleScanViews.{style_scan_at, style_triple_at};
ghost use Rattle.css_step.specs.StyleScans.{is_style_start, style_scan_cut_error};
ghost use Rattle.css_step.specs.StyleScans.{style_scan_place, style_scan_start};
ghost use Rattle.place_core.specs.place.StyleParts.{style_quoted_place, style_string_place};
ghost use Rattle.url_lexer.specs.Refusals.{refuses_cut_in};

use crate::scan::{NO_TAILS, StyleEscape, StyleQuote, StyleScan, StyleTriple};
use place_core::{Code, Css, CssTails, Parts};

/// Why the end of a node is refused in a style. The error stands `back` bytes before the end; the place that is shown stands
/// `shown` bytes before it.
#[derive(Clone, Copy)]
pub struct StyleCut {
    pub code: Code,
    pub back: u16,
    pub shown: u16,
}

/// Where a text begins at a place.
pub fn start(place: Css) -> StyleScan
    ensures { style_scan_at result ≡ style_scan_start place }
{
    match place {
        Css::Code(tails) => StyleScan::Code(tails),
        Css::Dq => StyleScan::InString(StyleQuote::Double, StyleEscape::None),
        Css::Sq => StyleScan::InString(StyleQuote::Single, StyleEscape::None),
        Css::UrlFresh => StyleScan::Fresh,
        Css::Url(parts) => StyleScan::BareUrl(parts, StyleTriple::None),
        Css::UrlDq(parts) => {
            StyleScan::QuotedUrl(
                StyleQuote::Double,
                StyleEscape::None,
                parts,
                StyleTriple::None,
            )
        }
        Css::UrlSq(parts) => {
            StyleScan::QuotedUrl(
                StyleQuote::Single,
                StyleEscape::None,
                parts,
                StyleTriple::None,
            )
        }
        Css::UrlEnd => StyleScan::Ended,
        Css::Comment(true) => StyleScan::StarBefore,
        Css::Comment(false) => StyleScan::Comment(false),
    }
}

// The place in a string.
fn string_place(quote: StyleQuote) -> Css
    ensures { result ≡ style_string_place (style_quote_at quote) }
{
    match quote {
        StyleQuote::Double => Css::Dq,
        StyleQuote::Single => Css::Sq,
    }
}

// The place in a URL in quotes.
fn quoted_place(quote: StyleQuote, parts: Parts) -> Css
    ensures { result ≡ style_quoted_place (style_quote_at quote) parts }
{
    match quote {
        StyleQuote::Double => Css::UrlDq(parts),
        StyleQuote::Single => Css::UrlSq(parts),
    }
}

/// The place where the node ends, if that is not refused.
pub fn place(scan: StyleScan) -> Css
    ensures { result ≡ style_scan_place (style_scan_at scan) }
{
    match scan {
        StyleScan::Code(tails) => Css::Code(tails),
        StyleScan::Word(_, _) | StyleScan::SplitEscape(_) => Css::Code(CssTails {
            word: true,
            ..NO_TAILS
        }),
        StyleScan::Solidus => Css::Code(CssTails {
            slash: true,
            ..NO_TAILS
        }),
        StyleScan::LessThan => Css::Code(CssTails {
            lt: true,
            ..NO_TAILS
        }),
        StyleScan::Comment(star) => Css::Comment(star),
        StyleScan::StarBefore => Css::Comment(true),
        StyleScan::InString(quote, _) => string_place(quote),
        StyleScan::Fresh => Css::UrlFresh,
        StyleScan::BareUrl(parts, _) => Css::Url(parts),
        StyleScan::QuotedUrl(quote, _, parts, _) => quoted_place(quote, parts),
        StyleScan::Ended => Css::UrlEnd,
    }
}

/// Whether a text that begins at the place of a scan state is stepped as from there; of another one the place says less.
pub fn is_start(scan: StyleScan) -> bool
    ensures { result ≡ is_style_start (style_scan_at scan) }
{
    match scan {
        StyleScan::Code(_)
        | StyleScan::Comment(false)
        | StyleScan::StarBefore
        | StyleScan::InString(_, StyleEscape::None)
        | StyleScan::Fresh
        | StyleScan::BareUrl(_, StyleTriple::None)
        | StyleScan::QuotedUrl(_, StyleEscape::None, _, StyleTriple::None)
        | StyleScan::Ended => true,
        StyleScan::Word(_, _)
        | StyleScan::SplitEscape(_)
        | StyleScan::Solidus
        | StyleScan::LessThan
        | StyleScan::Comment(true)
        | StyleScan::InString(_, _)
        | StyleScan::BareUrl(_, _)
        | StyleScan::QuotedUrl(_, _, _, _) => false,
    }
}

// Why the end of a node is refused in an escape.
fn in_escape(escape: StyleEscape) -> Option<StyleCut>
    ensures { result ≡ option_map style_cut_at (refuses_in_escape (style_escape_at escape)) }
{
    match escape {
        StyleEscape::None => None,
        StyleEscape::Backslash => Some(StyleCut {
            code: Code::PartialEscape,
            back: 0,
            shown: 1,
        }),
        StyleEscape::Digits(count) => Some(StyleCut {
            code: Code::PartialEscape,
            back: 0,
            shown: u16::from(count) + 1,
        }),
        StyleEscape::Return => Some(StyleCut {
            code: Code::PartialEscape,
            back: 0,
            shown: 2,
        }),
    }
}

// Why it is refused in a percent triple.
fn in_triple(triple: StyleTriple) -> Option<StyleCut>
    ensures { result ≡ option_map style_cut_at
        (url_cut_refusal (refuses_cut_in (style_triple_at triple))) }
{
    match triple {
        StyleTriple::None => None,
        StyleTriple::Percent => Some(StyleCut {
            code: Code::PartialEscape,
            back: 0,
            shown: 1,
        }),
        StyleTriple::Digit => Some(StyleCut {
            code: Code::PartialEscape,
            back: 0,
            shown: 2,
        }),
    }
}

// Why it is refused in a URL in quotes.
fn in_quotes(escape: StyleEscape, triple: StyleTriple) -> Option<StyleCut>
    ensures { result ≡ option_map style_cut_at (first_refusal
        (refuses_in_escape (style_escape_at escape))
        (url_cut_refusal (refuses_cut_in (style_triple_at triple)))) }
{
    match escape {
        StyleEscape::None => in_triple(triple),
        StyleEscape::Backslash => in_escape(StyleEscape::Backslash),
        StyleEscape::Digits(count) => in_escape(StyleEscape::Digits(count)),
        StyleEscape::Return => in_escape(StyleEscape::Return),
    }
}

/// Why the end of a node is refused, where it is: an escape or a percent triple is open.
pub fn refused_at_cut(scan: StyleScan) -> Option<StyleCut>
    ensures { result ≡ option_map style_cut_at (style_scan_cut_error (style_scan_at scan)) }
{
    match scan {
        StyleScan::Word(_, escape)
        | StyleScan::SplitEscape(escape)
        | StyleScan::InString(_, escape) => in_escape(escape),
        StyleScan::BareUrl(_, triple) => in_triple(triple),
        StyleScan::QuotedUrl(_, escape, _, triple) => in_quotes(escape, triple),
        StyleScan::Code(_)
        | StyleScan::Solidus
        | StyleScan::LessThan
        | StyleScan::Comment(_)
        | StyleScan::StarBefore
        | StyleScan::Fresh
        | StyleScan::Ended => None,
    }
}
