// What is refused in a value that is a style, on all paths together.
ghost use Rattle.std.specs.Prelude.{◌≡◌, ◌+◌, ◌∷◌, ◌<◌, ◌≤◌, ℕ, IfSome, [], true, false, encode_utf8, get_or, length, option_map};
ghost use Rattle.css_lexer.specs.RefusalCodes.{StyleCutRefusal};
ghost use Rattle.css_step.specs.StyleScanViews.{style_scan_at};
ghost use Rattle.css_step.specs.StyleScans.{style_scan_cut_error};
ghost use Rattle.place_core.specs.page.Classes as classes;
ghost use Rattle.place_core.specs.page.References.{Closes, as_it_stands, plain_bytes};
ghost use Rattle.place_core.specs.page.Tags.{feed_bytes, style_code};
ghost use Rattle.place_core.specs.place.Errors.{fed_error, first_byte_error, flushed_error, language_error, turned_error};
ghost use Rattle.html_scan.specs.ClassViews.{class_at};
ghost use Rattle.html_scan.specs.ScanViews.{cause_at, open_form_at, open_reference_at, reference_from};
ghost use Rattle.html_scan.specs.Scans.{quoted_error, style_feeding, written_error};
ghost use Rattle.place_core.specs.page.References as references;

use crate::cause::Cause;
use crate::class::Class;
use crate::errors::at_hand;
use crate::quoting::Quoting;
use crate::references::{
    OpenReference, Outcome, ReferenceForm, broken_char, is_equals, is_unknown, meaning, turn,
};
use crate::slices::pending;
use crate::styles::{broken, style_at_cut};
use crate::types::ends;
use css_step::StyleScan;
use place_core::{Code, Quotes};

/// Why a byte is refused in a style, between these quotes.
pub fn refused_in_style(
    text: &[u8],
    index: usize,
    class: Class,
    quotes: Quotes,
    style: StyleScan,
    reference: Option<OpenReference>,
) -> Option<Cause>
    requires inside { index < length text.now }
    requires pending { reference_from reference ≤ index }
    ensures error { cause_at result ≡ quoted_error style_feeding quotes (style_scan_at style)
        (open_reference_at text.now index reference) (class_at class) (get_or text.now index 0) }
    ensures bound { IfSome result (λ cause. (cause.back ≤ index) × (cause.shown ≤ index)) }
{
    match quotes {
        Quotes::Dq => {
            let ended = ends(Quoting::Double, class);
            of_language(ended, text, index, class, style, reference)
        }
        Quotes::Sq => {
            let ended = ends(Quoting::Single, class);
            of_language(ended, text, index, class, style, reference)
        }
        Quotes::Bare(bare) => {
            if bare.uq {
                let ended = ends(Quoting::Unquoted, class);
                return of_language(ended, text, index, class, style, reference);
            }
            of_first_byte(style, class, text[index])
        }
    }
}

// The same, by whether the byte ends the value.
fn of_language(
    ended: bool,
    text: &[u8],
    index: usize,
    class: Class,
    style: StyleScan,
    reference: Option<OpenReference>,
) -> Option<Cause>
    requires inside { index < length text.now }
    requires pending { reference_from reference ≤ index }
    ensures error { cause_at result ≡ language_error style_feeding ended (style_scan_at style)
        (open_reference_at text.now index reference) (class_at class) (get_or text.now index 0) }
    ensures bound { IfSome result (λ cause. (cause.back ≤ index) × (cause.shown ≤ index)) }
{
    match reference {
        None => {
            if ended {
                return None;
            }
            of_plain_byte(style, class, text[index])
        }
        Some(open) => {
            let read = pending(text, open.from + 1, index);
            if ended {
                return of_broken(style, false, open.form, read);
            }
            in_reference(style, open.form, read, class, text[index])
        }
    }
}

// At a byte at which a reference is open, of which this has been read.
fn in_reference(
    style: StyleScan,
    form: ReferenceForm,
    read: &[u8],
    class: Class,
    byte: u8,
) -> Option<Cause>
    ensures error { cause_at result ≡ turned_error style_feeding (style_scan_at style)
        (references.turn (class_at class) (open_form_at form)) (open_form_at form) read.now
        (class_at class) byte }
    ensures bound { IfSome result (λ cause.
        (cause.back ≤ length read.now + 1) × (cause.shown ≤ length read.now + 1)) }
{
    match turn(class, form) {
        Outcome::Grows(_) => None,
        Outcome::Closes => of_closed(style, form, read),
        Outcome::Breaks => {
            let equals = is_equals(class);
            match of_broken(style, equals, form, read) {
                Some(cause) => Some(cause),
                None => of_plain_byte(broken(style, equals, form, read), class, byte),
            }
        }
    }
}

// A reference that its semicolon ends: a name that stands for no character, or its bytes.
fn of_closed(style: StyleScan, form: ReferenceForm, read: &[u8]) -> Option<Cause>
    ensures error { (c : classes.Class) (b : ℕ) → cause_at result ≡ turned_error style_feeding
        (style_scan_at style) Closes (open_form_at form) read.now c b }
    ensures bound { IfSome result (λ cause.
        (cause.back ≤ length read.now + 1) × (cause.shown ≤ length read.now + 1)) }
{
    if is_unknown(form, read) {
        return Some(Cause {
            code: Code::BadHTML,
            back: read.len() + 1,
            shown: read.len() + 1,
        });
    }
    of_char(style, meaning(form, read), read.len() + 1)
}

// A reference that no semicolon ends.
#[tactic(auto, using(crate::proofs::UrlsFed::flushed_char, crate::proofs::UrlsFed::flushed_written))]
fn of_broken(style: StyleScan, equals: bool, form: ReferenceForm, read: &[u8]) -> Option<Cause>
    ensures error { cause_at result ≡ flushed_error style_feeding (style_scan_at style) equals
        (open_form_at form) read.now }
    ensures bound { IfSome result (λ cause.
        (cause.back ≤ length read.now + 1) × (cause.shown ≤ length read.now + 1)) }
{
    match broken_char(equals, form, read) {
        Some(found) => of_char(style, found, read.len() + 1),
        None => of_written(style, read),
    }
}

// The bytes of a character that stands so far back.
fn of_char(style: StyleScan, found: char, back: usize) -> Option<Cause>
    ensures error { cause_at result
        ≡ fed_error style_feeding (style_scan_at style) (encode_utf8 found) false back }
    ensures bound { IfSome result (λ cause. (cause.back ≤ back) × (cause.shown ≤ back)) }
{
    let mut buffer = [0; 4];
    of_bytes(
        style,
        found.encode_utf8(&mut buffer).as_bytes(),
        false,
        back,
    )
}

// A reference that is text as it stands.
fn of_written(style: StyleScan, read: &[u8]) -> Option<Cause>
    ensures error { cause_at result ≡ fed_error style_feeding (style_scan_at style)
        (38 ∷ read.now) true (length read.now + 1) }
    ensures bound { IfSome result (λ cause.
        (cause.back ≤ length read.now + 1) × (cause.shown ≤ length read.now + 1)) }
{
    match css_step::refused(style, b'&') {
        Some(code) => Some(Cause {
            code,
            back: read.len() + 1,
            shown: read.len() + 1,
        }),
        None => of_bytes(css_step::next(style, b'&'), read, true, read.len()),
    }
}

/// Bytes, the first of which stands so far back: each at its own place, or all where the first one stands.
pub fn of_bytes(style: StyleScan, bytes: &[u8], written: bool, back: usize) -> Option<Cause>
    ensures error { cause_at result
        ≡ fed_error style_feeding (style_scan_at style) bytes.now written back }
    ensures bound { IfSome result (λ cause. (cause.back ≤ back) × (cause.shown ≤ back)) }
{
    let mut fed = style;
    let mut left = back;
    for byte in bytes {
        match css_step::refused(fed, *byte) {
            Some(code) => return Some(Cause {
                code,
                back: left,
                shown: left,
            }),
            None => fed = css_step::next(fed, *byte),
        }
        if written {
            left = left.saturating_sub(1);
        }
    }
    None
}

// A byte at which no reference is open; an ampersand opens one.
fn of_plain_byte(style: StyleScan, class: Class, byte: u8) -> Option<Cause>
    ensures error { cause_at result ≡ fed_error style_feeding (style_scan_at style)
        (plain_bytes (class_at class) byte) false 0 }
    ensures bound { IfSome result (λ cause. (cause.back ≤ 0) × (cause.shown ≤ 0)) }
{
    match class {
        Class::Ampersand => None,
        _ => of_byte(style, byte),
    }
}

fn of_byte(style: StyleScan, byte: u8) -> Option<Cause>
    ensures error { cause_at result
        ≡ fed_error style_feeding (style_scan_at style) (byte ∷ []) false 0 }
    ensures bound { IfSome result (λ cause. (cause.back ≤ 0) × (cause.shown ≤ 0)) }
{
    match css_step::refused(style, byte) {
        Some(code) => at_hand(Some(code)),
        None => None,
    }
}

// The byte that begins a value without quotes.
fn of_first_byte(style: StyleScan, class: Class, byte: u8) -> Option<Cause>
    ensures error { cause_at result
        ≡ first_byte_error style_feeding (style_scan_at style) (class_at class) byte }
    ensures bound { IfSome result (λ cause. (cause.back ≤ 0) × (cause.shown ≤ 0)) }
{
    match class {
        Class::White | Class::QuotationMark | Class::Apostrophe | Class::GreaterThan => None,
        _ => of_plain_byte(style, class, byte),
    }
}

/// Why the end of a text is refused in a reference of a style, each byte of which is text as it stands.
pub fn of_open_in_style(
    text: &[u8],
    style: StyleScan,
    reference: Option<OpenReference>,
) -> Option<Cause>
    requires pending { reference_from reference ≤ length text.now }
    ensures error { cause_at result ≡ written_error style_feeding (style_scan_at style)
        (as_it_stands (open_reference_at text.now (length text.now) reference)) }
    ensures bound { IfSome result (λ cause.
        (cause.back ≤ length text.now) × (cause.shown ≤ length text.now)) }
{
    match reference {
        None => None,
        Some(open) => of_written(style, pending(text, open.from + 1, text.len())),
    }
}

/// Why the end of a text is refused in a lexeme of a style that has begun: in an escape or a percent triple.
pub fn of_unfinished_style(
    text: &[u8],
    style: StyleScan,
    reference: Option<OpenReference>,
) -> Option<Code>
    requires pending { reference_from reference ≤ length text.now }
    ensures { result ≡ option_map (λ (e : StyleCutRefusal). style_code e.code)
        (style_scan_cut_error (feed_bytes style_feeding (style_scan_at style)
        (as_it_stands (open_reference_at text.now (length text.now) reference)))) }
{
    match css_step::refused_at_cut(style_at_cut(text, style, reference)) {
        Some(cut) => Some(cut.code),
        None => None,
    }
}
