// What is refused in a value that is a URL, on all paths together.
ghost use Rattle.std.specs.Prelude.{◌≡◌, ◌+◌, ◌∷◌, ◌<◌, ◌≤◌, ℕ, IfSome, [], true, false, encode_utf8, get_or, length};
ghost use Rattle.place_core.specs.page.Classes as classes;
ghost use Rattle.place_core.specs.page.References.{Closes, as_it_stands, plain_bytes};
ghost use Rattle.place_core.specs.place.Errors.{fed_error, first_byte_error, flushed_error, language_error, turned_error};
ghost use Rattle.place_core.specs.declared.body.Body.TheVariants as body;
ghost use Rattle.html_scan.specs.ClassViews.{class_at};
ghost use Rattle.html_scan.specs.ScanViews.{cause_at, open_form_at, open_reference_at, reference_from, triple_at};
ghost use Rattle.html_scan.specs.Scans.{if_unfinished, open_cut_error, body_cause, parts_feeding, triple_behind};
ghost use Rattle.place_core.specs.page.References as references;

use crate::cause::Cause;
use crate::class::Class;
use crate::errors::at_hand;
use crate::quoting::Quoting;
use crate::references::{
    OpenReference, Outcome, ReferenceForm, broken_char, is_equals, is_unknown, meaning, turn,
};
use crate::slices::pending;
use crate::triple::Triple;
use crate::types::ends;
use crate::urls::{broken_parts, triple_at_cut};
use place_core::{Body, Code, Parts, Quotes};

/// Why a byte is refused in a URL, between these quotes.
pub fn refused_in_url(
    text: &[u8],
    index: usize,
    class: Class,
    quotes: Quotes,
    parts: Parts,
    reference: Option<OpenReference>,
) -> Option<Cause>
    requires inside { index < length text.now }
    requires pending { reference_from reference ≤ index }
    ensures error { cause_at result ≡ body_cause (body.Url parts) quotes
        (open_reference_at text.now index reference) (class_at class) (get_or text.now index 0) }
    ensures bound { IfSome result (λ cause. (cause.back ≤ index) × (cause.shown ≤ index)) }
{
    match quotes {
        Quotes::Dq => {
            let ended = ends(Quoting::Double, class);
            of_language(ended, text, index, class, parts, reference)
        }
        Quotes::Sq => {
            let ended = ends(Quoting::Single, class);
            of_language(ended, text, index, class, parts, reference)
        }
        Quotes::Bare(bare) => {
            if bare.uq {
                let ended = ends(Quoting::Unquoted, class);
                return of_language(ended, text, index, class, parts, reference);
            }
            of_first_byte(parts, class, text[index])
        }
    }
}

// The same, by whether the byte ends the value.
fn of_language(
    ended: bool,
    text: &[u8],
    index: usize,
    class: Class,
    parts: Parts,
    reference: Option<OpenReference>,
) -> Option<Cause>
    requires inside { index < length text.now }
    requires pending { reference_from reference ≤ index }
    ensures error { cause_at result ≡ language_error parts_feeding ended parts
        (open_reference_at text.now index reference) (class_at class) (get_or text.now index 0) }
    ensures bound { IfSome result (λ cause. (cause.back ≤ index) × (cause.shown ≤ index)) }
{
    match reference {
        None => {
            if ended {
                return None;
            }
            of_plain_byte(parts, class, text[index])
        }
        Some(open) => {
            let read = pending(text, open.from + 1, index);
            if ended {
                return of_broken(parts, false, open.form, read);
            }
            in_reference(parts, open.form, read, class, text[index])
        }
    }
}

// At a byte at which a reference is open, of which this has been read.
fn in_reference(
    parts: Parts,
    form: ReferenceForm,
    read: &[u8],
    class: Class,
    byte: u8,
) -> Option<Cause>
    ensures error { cause_at result ≡ turned_error parts_feeding parts
        (references.turn (class_at class) (open_form_at form)) (open_form_at form) read.now
        (class_at class) byte }
    ensures bound { IfSome result (λ cause.
        (cause.back ≤ length read.now + 1) × (cause.shown ≤ length read.now + 1)) }
{
    match turn(class, form) {
        Outcome::Grows(_) => None,
        Outcome::Closes => of_closed(parts, form, read),
        Outcome::Breaks => {
            let equals = is_equals(class);
            match of_broken(parts, equals, form, read) {
                Some(cause) => Some(cause),
                None => of_plain_byte(broken_parts(parts, equals, form, read), class, byte),
            }
        }
    }
}

// A reference that its semicolon ends: a name that stands for no character, or its bytes.
fn of_closed(parts: Parts, form: ReferenceForm, read: &[u8]) -> Option<Cause>
    ensures error { (c : classes.Class) (b : ℕ) → cause_at result
        ≡ turned_error parts_feeding parts Closes (open_form_at form) read.now c b }
    ensures bound { IfSome result (λ cause.
        (cause.back ≤ length read.now + 1) × (cause.shown ≤ length read.now + 1)) }
{
    if is_unknown(form, read) {
        return Some(Cause {
            code: Code::BadHTML,
            back: read.len() + 1,
            shown: read.len() + 1,
        });
    }
    of_char(parts, meaning(form, read), read.len() + 1)
}

// A reference that no semicolon ends.
#[tactic(auto, using(crate::proofs::UrlsFed::flushed_char, crate::proofs::UrlsFed::flushed_written))]
fn of_broken(parts: Parts, equals: bool, form: ReferenceForm, read: &[u8]) -> Option<Cause>
    ensures error { cause_at result
        ≡ flushed_error parts_feeding parts equals (open_form_at form) read.now }
    ensures bound { IfSome result (λ cause.
        (cause.back ≤ length read.now + 1) × (cause.shown ≤ length read.now + 1)) }
{
    match broken_char(equals, form, read) {
        Some(found) => of_char(parts, found, read.len() + 1),
        None => of_written(parts, read),
    }
}

// The bytes of a character that stands so far back.
fn of_char(parts: Parts, found: char, back: usize) -> Option<Cause>
    ensures error { cause_at result
        ≡ fed_error parts_feeding parts (encode_utf8 found) false back }
    ensures bound { IfSome result (λ cause. (cause.back ≤ back) × (cause.shown ≤ back)) }
{
    let mut buffer = [0; 4];
    of_bytes(
        parts,
        found.encode_utf8(&mut buffer).as_bytes(),
        false,
        back,
    )
}

// A reference that is text as it stands.
fn of_written(parts: Parts, read: &[u8]) -> Option<Cause>
    ensures error { cause_at result
        ≡ fed_error parts_feeding parts (38 ∷ read.now) true (length read.now + 1) }
    ensures bound { IfSome result (λ cause.
        (cause.back ≤ length read.now + 1) × (cause.shown ≤ length read.now + 1)) }
{
    match url_step::refused(parts, b'&') {
        Some(code) => Some(Cause {
            code,
            back: read.len() + 1,
            shown: read.len() + 1,
        }),
        None => of_bytes(url_step::next(parts, b'&'), read, true, read.len()),
    }
}

// Bytes, the first of which stands so far back: each at its own place, or all where the first one stands.
fn of_bytes(parts: Parts, bytes: &[u8], written: bool, back: usize) -> Option<Cause>
    ensures error { cause_at result ≡ fed_error parts_feeding parts bytes.now written back }
    ensures bound { IfSome result (λ cause. (cause.back ≤ back) × (cause.shown ≤ back)) }
{
    let mut fed = parts;
    let mut left = back;
    for byte in bytes {
        match url_step::refused(fed, *byte) {
            Some(code) => return Some(Cause {
                code,
                back: left,
                shown: left,
            }),
            None => fed = url_step::next(fed, *byte),
        }
        if written {
            left = left.saturating_sub(1);
        }
    }
    None
}

// A byte at which no reference is open; an ampersand opens one.
fn of_plain_byte(parts: Parts, class: Class, byte: u8) -> Option<Cause>
    ensures error { cause_at result
        ≡ fed_error parts_feeding parts (plain_bytes (class_at class) byte) false 0 }
    ensures bound { IfSome result (λ cause. (cause.back ≤ 0) × (cause.shown ≤ 0)) }
{
    match class {
        Class::Ampersand => None,
        _ => of_byte(parts, byte),
    }
}

fn of_byte(parts: Parts, byte: u8) -> Option<Cause>
    ensures error { cause_at result ≡ fed_error parts_feeding parts (byte ∷ []) false 0 }
    ensures bound { IfSome result (λ cause. (cause.back ≤ 0) × (cause.shown ≤ 0)) }
{
    match url_step::refused(parts, byte) {
        Some(code) => at_hand(Some(code)),
        None => None,
    }
}

// The byte that begins a value without quotes.
fn of_first_byte(parts: Parts, class: Class, byte: u8) -> Option<Cause>
    ensures error { cause_at result
        ≡ first_byte_error parts_feeding parts (class_at class) byte }
    ensures bound { IfSome result (λ cause. (cause.back ≤ 0) × (cause.shown ≤ 0)) }
{
    match class {
        Class::White | Class::QuotationMark | Class::Apostrophe | Class::GreaterThan => None,
        _ => of_plain_byte(parts, class, byte),
    }
}

/// Why the end of a text is refused in a reference, each byte of which is text as it stands.
pub fn of_open(text: &[u8], body: Body, reference: Option<OpenReference>) -> Option<Cause>
    requires pending { reference_from reference ≤ length text.now }
    ensures error { cause_at result ≡ open_cut_error body
        (as_it_stands (open_reference_at text.now (length text.now) reference)) }
    ensures bound { IfSome result (λ cause.
        (cause.back ≤ length text.now) × (cause.shown ≤ length text.now)) }
{
    match body {
        Body::Url(parts) => match reference {
            None => None,
            Some(open) => of_written(parts, pending(text, open.from + 1, text.len())),
        },
        Body::Plain | Body::NoHole | Body::Js(_) | Body::Css(_) => None,
    }
}

/// Why the end of a text is refused in a lexeme that has begun: in a percent triple.
pub fn of_unfinished(text: &[u8], triple: Triple, reference: Option<OpenReference>) -> Option<Code>
    requires pending { reference_from reference ≤ length text.now }
    ensures { result ≡ if_unfinished (triple_behind (triple_at triple)
        (as_it_stands (open_reference_at text.now (length text.now) reference))) }
{
    match triple_at_cut(text, triple, reference) {
        Triple::None => None,
        Triple::AfterPercent | Triple::AfterDigit => Some(Code::PartialEscape),
    }
}
