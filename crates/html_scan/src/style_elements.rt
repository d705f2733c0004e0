// The content of the element `style`, on all paths together: where a byte leads, and why one is refused. What is pending back, as it may
// be its end tag, is fed to the style where it comes to nothing.
ghost use Rattle.std.specs.Prelude.{◌≡◌, ◌+◌, ◌<◌, ◌≤◌, ◌∷◌, ◌++◌, ℕ, List, IfSome, Some, true, codes, get_or, length, option_map};
ghost use Rattle.css_lexer.specs.Elements.{less_than_cut_escape, less_than_cut_string};
ghost use Rattle.css_lexer.specs.RefusalCodes.{StyleCutRefusal};
ghost use Rattle.css_step.specs.StyleScanViews.{style_escape_at, style_scan_at};
ghost use Rattle.css_step.specs.StyleScans.{style_scan_cut_error, style_scan_place, style_scan_start};
ghost use Rattle.place_core.specs.declared.code.Code.TheVariants as code;
ghost use Rattle.place_core.specs.declared.place.Place.TheVariants as place;
ghost use Rattle.place_core.specs.page.States.{PendingLess, PendingName};
ghost use Rattle.place_core.specs.page.Tags.{feed_bytes, style_code, style_cut};
ghost use Rattle.place_core.specs.place.Errors.{content_end_cut_error, cut_cause, end_name_error, fed_error, less_error, loose_byte_error, name_goes_on, pending_error};
ghost use Rattle.html_scan.specs.ClassViews.{class_at};
ghost use Rattle.html_scan.specs.ScanViews.{begun_escape, begun_lexeme, cause_at, pending_from, scan_at};
ghost use Rattle.html_scan.specs.Scans.{element_less_next, element_name_next, element_next, element_scan, style_feeding, style_less_cause};
ghost use Rattle.html_scan.specs.Slices as slices;

use crate::cause::Cause;
use crate::class::Class;
use crate::errors::at_hand;
use crate::scan::Scan;
use crate::style_refusals::of_bytes;
use crate::styles::after_bytes;
use crate::tags::before_name;
use css_step::{StyleEscape, StyleScan};
use place_core::{Code, Css, Place, TagOf};

/// At a place in it.
#[tactic(auto, using(crate::proofs::StyleElements::none_begun))]
pub fn at_place(class: Class, byte: u8, css: Css) -> Scan
    ensures scan { (text : List ℕ) (k : ℕ) → scan_at text k result
        ≡ element_next (style_scan_start css) (class_at class) byte }
    ensures pending { pending_from result ≤ 1 }
{
    in_element(class, byte, css_step::start(css))
}

/// Where nothing is pending back.
pub fn in_element(class: Class, byte: u8, style: StyleScan) -> Scan
    ensures scan { (text : List ℕ) (k : ℕ) → scan_at text k result
        ≡ element_next (style_scan_at style) (class_at class) byte }
    ensures pending { pending_from result ≤ begun_lexeme (style_scan_at style) + 1 }
{
    match class {
        Class::LessThan => Scan::AfterStyleLess(style),
        _ => at_style(css_step::next(style, byte)),
    }
}

// The scan state in a style that has been scanned so: a place, where it is in no lexeme.
#[tactic(auto, using(crate::proofs::StyleElements::begun_small))]
fn at_style(style: StyleScan) -> Scan
    ensures scan { (text : List ℕ) (k : ℕ) → scan_at text k result
        ≡ element_scan (style_scan_at style) }
    ensures pending { pending_from result ≤ 1 }
{
    if css_step::is_start(style) {
        return Scan::At(style_place(style));
    }
    Scan::InStyleElement(style)
}

/// After `<`.
#[tactic(auto, using(crate::proofs::StyleElements::begun_small))]
pub fn after_less(class: Class, byte: u8, style: StyleScan, index: usize) -> Scan
    requires less { 1 ≤ index }
    ensures scan { (text : List ℕ) → scan_at text (index + 1) result
        ≡ element_less_next (style_scan_at style) (class_at class) byte }
    ensures pending { pending_from result ≤ index + 1 }
{
    match class {
        Class::Solidus => Scan::InStyleName {
            style,
            from: index - 1,
        },
        _ => in_element(class, byte, behind_less(style)),
    }
}

/// After `</` and these letters: whether the byte goes on with the name of the element, and whether they are all of it.
#[tactic(auto, using(crate::proofs::StyleElements::begun_small))]
pub fn in_name(
    class: Class,
    byte: u8,
    grows: bool,
    whole: bool,
    style: StyleScan,
    from: usize,
    letters: &[u8],
) -> Scan
    ensures scan { (text : List ℕ) (k : ℕ) → from + 2 ≤ k → k < length text
        → byte ≡ get_or text k 0 → letters.now ≡ slices.pending text (from + 2) k
        → scan_at text (k + 1) result ≡ element_name_next (style_scan_at style) grows whole
        (class_at class) byte letters.now }
    ensures pending { pending_from result ≤ from + 2 }
{
    if !end_tag_goes_on(class, grows, whole) {
        return in_element(class, byte, behind_name(style, letters));
    }
    match class {
        Class::Letter(_) => Scan::InStyleName { style, from },
        Class::GreaterThan => Scan::At(Place::Text),
        _ => Scan::At(before_name(TagOf::End, false)),
    }
}

/// Whether a byte after `</` and letters goes on with the name of the end tag, or ends it: by whether these are a beginning of the
/// name with it, and whether they are the whole name without it.
pub fn end_tag_goes_on(class: Class, grows: bool, whole: bool) -> bool
    ensures { result ≡ name_goes_on grows whole (class_at class) }
{
    match class {
        Class::Letter(_) => grows,
        Class::White | Class::Solidus | Class::GreaterThan => whole,
        _ => false,
    }
}

/// The style behind a `<` that begins no end tag.
pub fn behind_less(style: StyleScan) -> StyleScan
    ensures { style_scan_at result ≡ feed_bytes style_feeding (style_scan_at style) (codes "<") }
{
    css_step::next(style, b'<')
}

/// The style behind `</` and letters that are no end tag.
pub fn behind_name(style: StyleScan, letters: &[u8]) -> StyleScan
    ensures { style_scan_at result
        ≡ feed_bytes style_feeding (style_scan_at style) (codes "</" ++ letters.now) }
{
    let opened = css_step::next(behind_less(style), b'/');
    after_bytes(opened, letters)
}

/// Why a byte is refused where nothing is pending back.
pub fn refused(style: StyleScan, class: Class, byte: u8) -> Option<Code>
    ensures { result
        ≡ loose_byte_error style_feeding (style_scan_at style) (class_at class) byte }
{
    match class {
        Class::LessThan => None,
        _ => css_step::refused(style, byte),
    }
}

/// Why a byte is refused after `<`: for the `<`, which stands before it, or for the byte.
pub fn refused_after_less(style: StyleScan, class: Class, byte: u8) -> Option<Cause>
    ensures error { cause_at result
        ≡ less_error style_feeding (style_scan_at style) (class_at class) byte }
    ensures bound { IfSome result (λ cause. (cause.back ≤ 1) × (cause.shown ≤ 1)) }
{
    match class {
        Class::Solidus => None,
        _ => match of_less(style) {
            Some(cause) => Some(cause),
            None => at_hand(refused(behind_less(style), class, byte)),
        },
    }
}

/// Why a byte is refused after `</` and these letters: for one of these, or for the byte.
#[tactic(auto, using(crate::proofs::StyleElements::name_released))]
pub fn refused_in_name(
    style: StyleScan,
    class: Class,
    byte: u8,
    grows: bool,
    whole: bool,
    letters: &[u8],
) -> Option<Cause>
    ensures error { cause_at result ≡ end_name_error style_feeding (style_scan_at style) grows
        whole (class_at class) byte letters.now }
    ensures bound { IfSome result (λ cause.
        (cause.back ≤ length letters.now + 2) × (cause.shown ≤ length letters.now + 2)) }
{
    if end_tag_goes_on(class, grows, whole) {
        return None;
    }
    match of_name(style, letters) {
        Some(cause) => Some(cause),
        None => at_hand(refused(behind_name(style, letters), class, byte)),
    }
}

// A `<` that is pending back, and begins no end tag.
fn of_less(style: StyleScan) -> Option<Cause>
    ensures error { cause_at result
        ≡ pending_error style_feeding (style_scan_at style) (codes "<") }
    ensures bound { IfSome result (λ cause. (cause.back ≤ 1) × (cause.shown ≤ 1)) }
{
    match css_step::refused(style, b'<') {
        Some(code) => back_by(1, code),
        None => None,
    }
}

// `</` and letters that are pending back, and no end tag: each byte at its own place.
fn of_name(style: StyleScan, letters: &[u8]) -> Option<Cause>
    ensures error { cause_at result ≡ fed_error style_feeding (style_scan_at style)
        (codes "</" ++ letters.now) true (length letters.now + 2) }
    ensures bound { IfSome result (λ cause.
        (cause.back ≤ length letters.now + 2) × (cause.shown ≤ length letters.now + 2)) }
{
    match css_step::refused(style, b'<') {
        Some(code) => back_by(letters.len() + 2, code),
        None => of_solidus(css_step::next(style, b'<'), letters),
    }
}

// The same, of its `/`.
fn of_solidus(style: StyleScan, letters: &[u8]) -> Option<Cause>
    ensures error { cause_at result ≡ fed_error style_feeding (style_scan_at style)
        (47 ∷ letters.now) true (length letters.now + 1) }
    ensures bound { IfSome result (λ cause.
        (cause.back ≤ length letters.now + 1) × (cause.shown ≤ length letters.now + 1)) }
{
    match css_step::refused(style, b'/') {
        Some(code) => back_by(letters.len() + 1, code),
        None => of_bytes(css_step::next(style, b'/'), letters, true, letters.len()),
    }
}

/// Why the end of a text is refused after `<`: for the `<`, or since it may not be cut from what follows.
pub fn refused_at_less(style: StyleScan) -> Option<Cause>
    ensures error { cause_at result ≡ content_end_cut_error style_feeding style_less_cause
        (style_scan_at style) PendingLess }
    ensures bound { IfSome result (λ cause. (cause.back ≤ begun_lexeme (style_scan_at style) + 1)
        × (cause.shown ≤ begun_lexeme (style_scan_at style) + 1)) }
{
    match of_less(style) {
        Some(cause) => Some(cause),
        None => cut_less(style),
    }
}

/// Why the end of a text is refused after `</` and these letters: for one of these, or since the end tag may go on.
#[tactic(auto, using(crate::proofs::StyleElements::name_released))]
pub fn refused_at_name(style: StyleScan, letters: &[u8]) -> Option<Cause>
    ensures error { cause_at result ≡ content_end_cut_error style_feeding style_less_cause
        (style_scan_at style) (PendingName letters.now) }
    ensures bound { IfSome result (λ cause.
        (cause.back ≤ length letters.now + 2) × (cause.shown ≤ length letters.now + 2)) }
{
    match of_name(style, letters) {
        Some(cause) => Some(cause),
        None => split(letters.len() + 2),
    }
}

// A `<` that ends a node: in a string, a URL and behind a backslash it may not be cut from what follows.
fn cut_less(style: StyleScan) -> Option<Cause>
    ensures error { cause_at result ≡ style_less_cause (style_scan_at style) }
    ensures bound { IfSome result (λ cause. (cause.back ≤ begun_lexeme (style_scan_at style) + 1)
        × (cause.shown ≤ begun_lexeme (style_scan_at style) + 1)) }
{
    match style {
        StyleScan::Word(_, escape) | StyleScan::SplitEscape(escape) => cut_escape(escape),
        StyleScan::InString(_, escape) | StyleScan::QuotedUrl(_, escape, _, _) => {
            cut_string(escape)
        }
        StyleScan::Fresh | StyleScan::BareUrl(_, _) => split(1),
        StyleScan::Code(_)
        | StyleScan::Solidus
        | StyleScan::LessThan
        | StyleScan::Comment(_)
        | StyleScan::StarBefore
        | StyleScan::Ended => None,
    }
}

fn cut_escape(escape: StyleEscape) -> Option<Cause>
    ensures error { cause_at result ≡ option_map cut_cause (option_map style_cut
        (less_than_cut_escape (style_escape_at escape))) }
    ensures bound { IfSome result (λ cause. (cause.back ≤ begun_escape (style_escape_at escape) + 1)
        × (cause.shown ≤ begun_escape (style_escape_at escape) + 1)) }
{
    match escape {
        StyleEscape::Backslash => split(2),
        StyleEscape::None | StyleEscape::Digits(_) | StyleEscape::Return => None,
    }
}

fn cut_string(escape: StyleEscape) -> Option<Cause>
    ensures error { cause_at result ≡ option_map cut_cause (option_map style_cut
        (less_than_cut_string (style_escape_at escape))) }
    ensures bound { IfSome result (λ cause. (cause.back ≤ begun_escape (style_escape_at escape) + 1)
        × (cause.shown ≤ begun_escape (style_escape_at escape) + 1)) }
{
    match escape {
        StyleEscape::Backslash => split(2),
        StyleEscape::None | StyleEscape::Digits(_) | StyleEscape::Return => split(1),
    }
}

// A text that ends in so many bytes that may not be cut from what follows.
fn split(len: usize) -> Option<Cause>
    ensures { result ≡ Some (record { code = code.SplitToken; back = 0; shown = len }) }
{
    Some(Cause {
        code: Code::SplitToken,
        back: 0,
        shown: len,
    })
}

// A cause that stands so many bytes back.
fn back_by(back: usize, code: Code) -> Option<Cause>
    ensures { result ≡ Some (record { code = code; back = back; shown = back }) }
{
    Some(Cause {
        code,
        back,
        shown: back,
    })
}

/// Why the end of a text is refused in an escape or a percent triple of the style, which has been fed what is pending.
pub fn refused_lexeme(style: StyleScan) -> Option<Code>
    ensures { result ≡ option_map (λ (e : StyleCutRefusal). style_code e.code)
        (style_scan_cut_error (style_scan_at style)) }
{
    match css_step::refused_at_cut(style) {
        Some(cut) => Some(cut.code),
        None => None,
    }
}

/// The place in the element, in a style that has been scanned so.
pub fn style_place(style: StyleScan) -> Place
    ensures { result ≡ place.Style (style_scan_place (style_scan_at style)) }
{
    Place::Style(css_step::place(style))
}
