// What is refused in a value that is a script, on all paths together, and where it stands.
ghost use Rattle.std.specs.Prelude.{◌≡◌, ◌+◌, ◌^◌, ◌<◌, ◌≤◌, ◌∷◌, ◌++◌, ℕ, List, IfSome, Some, true, encode_utf8, get_or, length, option_map};
ghost use Rattle.js_step.specs.ScriptScanViews.{most_bytes, script_cause_at, script_scan_at};
ghost use Rattle.place_core.specs.page.References as references;
ghost use Rattle.place_core.specs.place.Errors.{fed_places, script_fed, turned_places, value_end_cause};
ghost use Rattle.html_scan.specs.ClassViews.{class_at};
ghost use Rattle.html_scan.specs.ScanViews.{cause_at, open_form_at, open_reference_at, pending_from, reference_from, scan_at, script_count, script_from};
ghost use Rattle.html_scan.specs.Scans.{all_scripts, ends_quoted, quoted_error, quoted_places, scan_deep_behind, scan_script_cut_refusal, scan_script_refusal, script_feeding, script_step_deep, script_step_refusal, written_error};
ghost use Rattle.html_scan.specs.ScriptPlaces.{bytes_fed, closed_name_error, fed_at, fed_last, fed_text, located_cause, places_from, places_fed, cause_stands_at, standing_refusal};
ghost use Rattle.html_scan.specs.ScriptPlaces as spec;

use crate::cause::Cause;
use crate::class::Class;
use crate::fed_run::{FedRun, broken_count, cut_run, fed_by, fed_count, fed_place};
use crate::quoting::Quoting;
use crate::references::{
    OpenReference, Outcome, ReferenceForm, broken_char, is_equals, is_unknown, meaning, turn,
};
use crate::scan::Scan;
use crate::script_places::{fed_before, place_of};
use crate::scripts::{after_byte, begun, broken, script_at_cut};
use crate::slices::pending;
use crate::types::ends;
use js_step::{ScriptCause, ScriptScan};
use place_core::{Body, Code, Place, Quotes};

/// A byte that a script refuses of those that a byte of a text feeds it: its number among them, and why.
#[derive(Clone, Copy)]
pub struct RefusedByte {
    pub number: usize,
    pub cause: ScriptCause,
}

/// Why a byte is refused in a script, between these quotes, and by which byte that is known.
pub fn refused_in_script(
    text: &[u8],
    index: usize,
    class: Class,
    quotes: Quotes,
    script: ScriptScan,
    reference: Option<OpenReference>,
) -> Option<Cause>
    requires inside { index < length text.now }
    requires pending { script_from (script_count script) reference ≤ index }
    ensures error { cause_at result ≡ quoted_error script_feeding quotes (script_scan_at script)
        (open_reference_at text.now index reference) (class_at class) (get_or text.now index 0) }
    ensures bound { IfSome result (λ cause. (cause.back ≤ index) × (cause.shown ≤ index)) }
{
    let stops = stops(quotes, class);
    let open = read_between(quotes, reference);
    match of_name(text, index, class, stops, open) {
        Some(cause) => Some(cause),
        None => {
            let run = fed_by(text, index, class, stops, open);
            let refused = first_refused(text, index, class, stops, script, open);
            located(index, run, refused)
        }
    }
}

/// What a script refuses at a byte of a text, at the place where that stands; it has been fed the text from `begins` on.
pub fn script_at_byte(
    text: &[u8],
    index: usize,
    class: Class,
    scan: Scan,
    begins: usize,
) -> Option<Cause>
    requires inside { index < length text.now }
    requires pending { pending_from scan ≤ index }
    requires begun { begins ≤ index }
    ensures refusal { cause_stands_at index (cause_at result)
        ≡ scan_script_refusal index (places_from text.now begins index)
        (scan_at text.now index scan) (class_at class) (get_or text.now index 0) }
    ensures bound { IfSome result (λ cause. (cause.back ≤ index) × (cause.shown ≤ index)) }
{
    match scan {
        Scan::InScript {
            place,
            script,
            reference,
        } => of_byte(text, index, class, place.quotes, script, reference, begins),
        Scan::At(Place::Value(value)) => match value.body {
            Body::Js(js) => of_byte(text, index, class, value.quotes, begun(js), None, index),
            _ => None,
        },
        _ => None,
    }
}

/// What a script refuses where a text ends in it, likewise.
pub fn script_at_end(text: &[u8], scan: Scan, begins: usize) -> Option<Cause>
    requires pending { pending_from scan ≤ length text.now }
    requires begun { begins ≤ length text.now }
    ensures refusal { let k = length text.now in cause_stands_at k (cause_at result)
        ≡ scan_script_cut_refusal k (places_from text.now begins k) (scan_at text.now k scan) }
    ensures bound { IfSome result (λ cause.
        (cause.back ≤ length text.now) × (cause.shown ≤ length text.now)) }
{
    match scan {
        Scan::InScript {
            script,
            reference,
            ..
        } => of_cut(text, script, reference, begins),
        _ => None,
    }
}

/// Where a byte ends a script in literals that nest too deep: the place before the outermost one.
pub fn script_too_deep(
    text: &[u8],
    index: usize,
    class: Class,
    scan: Scan,
    begins: usize,
) -> Option<usize>
    requires inside { index < length text.now }
    requires pending { pending_from scan ≤ index }
    requires begun { begins ≤ index }
    ensures deep { result ≡ scan_deep_behind index (places_from text.now begins index)
        (scan_at text.now index scan) (class_at class) (get_or text.now index 0) }
    ensures bound { IfSome result (λ shown. shown ≤ index) }
{
    match scan {
        Scan::InScript {
            place,
            script,
            reference,
        } => of_depth(text, index, class, place.quotes, script, reference, begins),
        Scan::At(Place::Value(value)) => match value.body {
            Body::Js(js) => of_depth(text, index, class, value.quotes, begun(js), None, index),
            _ => None,
        },
        _ => None,
    }
}

/// Where the bytes begin that a script is fed, behind the byte at an index.
pub fn script_begins(index: usize, scan: Scan, begins: usize) -> usize
    ensures { (text : List ℕ) (k : ℕ) → result
        ≡ spec.begins_behind index (scan_at text k scan) begins }
{
    match scan {
        Scan::InScript { .. } => begins,
        _ => index,
    }
}

// A byte of a value, or its end.
fn of_byte(
    text: &[u8],
    index: usize,
    class: Class,
    quotes: Quotes,
    script: ScriptScan,
    reference: Option<OpenReference>,
    begins: usize,
) -> Option<Cause>
    requires inside { index < length text.now }
    requires pending { script_from (script_count script) reference ≤ index }
    requires begun { begins ≤ index }
    ensures refusal { cause_stands_at index (cause_at result)
        ≡ script_step_refusal quotes index (places_from text.now begins index)
        (script_scan_at script) (open_reference_at text.now index reference) (class_at class)
        (get_or text.now index 0) }
    ensures bound { IfSome result (λ cause. (cause.back ≤ index) × (cause.shown ≤ index)) }
{
    let stops = stops(quotes, class);
    let open = read_between(quotes, reference);
    let run = fed_by(text, index, class, stops, open);
    match first_refused(text, index, class, stops, script, open) {
        Some(refused) => {
            let number = refused.number as u128;
            Some(standing(text, begins, index, run, number, refused.cause))
        }
        None => match of_value_end(text, index, class, quotes, script, reference) {
            Some(cause) if !is_told_at_node_end(cause) => {
                Some(standing(text, begins, index, run, fed_count(run), cause))
            }
            _ => None,
        },
    }
}

// The end of the node.
fn of_cut(
    text: &[u8],
    script: ScriptScan,
    reference: Option<OpenReference>,
    begins: usize,
) -> Option<Cause>
    requires pending { script_from (script_count script) reference ≤ length text.now }
    requires begun { begins ≤ length text.now }
    ensures refusal { let k = length text.now in cause_stands_at k (cause_at result)
        ≡ spec.cut_refusal k (places_from text.now begins k) (script_scan_at script)
        (open_reference_at text.now k reference) }
    ensures bound { IfSome result (λ cause.
        (cause.back ≤ length text.now) × (cause.shown ≤ length text.now)) }
{
    let run = cut_run(text, reference);
    match of_open(text, script, reference) {
        Some(refused) => {
            let number = refused.number as u128;
            Some(standing(text, begins, text.len(), run, number, refused.cause))
        }
        None => match js_step::refused_at_cut(script_at_cut(text, script, reference)) {
            Some(cause) => { Some(standing(text, begins, text.len(), run, fed_count(run), cause)) }
            None => None,
        },
    }
}

fn of_depth(
    text: &[u8],
    index: usize,
    class: Class,
    quotes: Quotes,
    script: ScriptScan,
    reference: Option<OpenReference>,
    begins: usize,
) -> Option<usize>
    requires inside { index < length text.now }
    requires pending { script_from (script_count script) reference ≤ index }
    requires begun { begins ≤ index }
    ensures deep { result ≡ script_step_deep quotes index (places_from text.now begins index)
        (script_scan_at script) (open_reference_at text.now index reference) (class_at class)
        (get_or text.now index 0) }
    ensures bound { IfSome result (λ shown. shown ≤ index) }
{
    match of_value_end(text, index, class, quotes, script, reference) {
        Some(cause) if is_told_at_node_end(cause) => {
            let open = read_between(quotes, reference);
            let run = fed_by(text, index, class, stops(quotes, class), open);
            Some(index - standing(text, begins, index, run, fed_count(run), cause).shown)
        }
        _ => None,
    }
}

/// Whether a cause that the end of a value has is told where the node ends.
pub fn is_told_at_node_end(cause: ScriptCause) -> bool
    ensures { result ≡ spec.is_template_code cause.code }
{
    matches!(cause.code, Code::JSTemplate)
}

// The end of the value, if the byte ends it.
fn of_value_end(
    text: &[u8],
    index: usize,
    class: Class,
    quotes: Quotes,
    script: ScriptScan,
    reference: Option<OpenReference>,
) -> Option<ScriptCause>
    requires inside { index < length text.now }
    requires pending { script_from (script_count script) reference ≤ index }
    ensures { result ≡ option_map script_cause_at
        (value_end_cause all_scripts (ends_quoted quotes (class_at class))
        (script_fed all_scripts (script_scan_at script) (quoted_places quotes index
        (open_reference_at text.now index reference) (class_at class) (get_or text.now index 0)))) }
{
    if !ends_between(quotes, class) {
        return None;
    }
    match reference {
        None => js_step::refused_at_end(script),
        Some(open) => {
            let read = pending(text, open.from + 1, index);
            js_step::refused_at_end(broken(script, false, open.form, read))
        }
    }
}

/// Whether a byte ends the value, between these quotes.
pub fn ends_between(quotes: Quotes, class: Class) -> bool
    ensures { result ≡ ends_quoted quotes (class_at class) }
{
    match quotes {
        Quotes::Dq => ends(Quoting::Double, class),
        Quotes::Sq => ends(Quoting::Single, class),
        Quotes::Bare(bare) => bare.uq && ends(Quoting::Unquoted, class),
    }
}

/// Whether a byte is no byte of the value: it ends the value, or does not begin it.
pub fn stops(quotes: Quotes, class: Class) -> bool
    ensures { result ≡ spec.stops quotes (class_at class) }
{
    match quotes {
        Quotes::Bare(bare) if !bare.uq => matches!(
            class,
            Class::White | Class::QuotationMark | Class::Apostrophe | Class::GreaterThan
        ),
        _ => ends_between(quotes, class),
    }
}

// The reference that is open, which is none where the value has not begun.
fn read_between(quotes: Quotes, reference: Option<OpenReference>) -> Option<OpenReference>
    ensures read { (text : List ℕ) (k : ℕ) → open_reference_at text k result
        ≡ spec.read_between quotes (open_reference_at text k reference) }
    ensures from { reference_from result ≤ reference_from reference }
{
    match quotes {
        Quotes::Bare(bare) if !bare.uq => None,
        _ => reference,
    }
}

// A name that stands for no character, which a semicolon ends.
fn of_name(
    text: &[u8],
    index: usize,
    class: Class,
    stops: bool,
    reference: Option<OpenReference>,
) -> Option<Cause>
    requires inside { index < length text.now }
    requires pending { reference_from reference ≤ index }
    ensures error { cause_at result ≡ closed_name_error stops (class_at class)
        (open_reference_at text.now index reference) }
    ensures bound { IfSome result (λ cause. (cause.back ≤ index) × (cause.shown ≤ index)) }
{
    match reference {
        Some(open) if !stops => {
            let read = pending(text, open.from + 1, index);
            match turn(class, open.form) {
                Outcome::Closes if is_unknown(open.form, read) => Some(Cause {
                    code: Code::BadHTML,
                    back: read.len() + 1,
                    shown: read.len() + 1,
                }),
                _ => None,
            }
        }
        _ => None,
    }
}

// The first that is refused of the bytes that a byte feeds.
fn first_refused(
    text: &[u8],
    index: usize,
    class: Class,
    stops: bool,
    script: ScriptScan,
    reference: Option<OpenReference>,
) -> Option<RefusedByte>
    requires inside { index < length text.now }
    requires pending { script_from (script_count script) reference ≤ index }
    ensures { result ≡ spec.first_refused (script_scan_at script) 0 (bytes_fed (fed_places stops
        index (open_reference_at text.now index reference) (class_at class)
        (get_or text.now index 0))) }
{
    match reference {
        None if stops => None,
        None => of_plain_byte(script, class, text[index], 0),
        Some(open) => {
            let read = pending(text, open.from + 1, index);
            if stops {
                return of_broken(script, false, open.form, read);
            }
            in_reference(script, open.form, read, class, text[index])
        }
    }
}

// At a byte at which a reference is open, of which this has been read.
fn in_reference(
    script: ScriptScan,
    form: ReferenceForm,
    read: &[u8],
    class: Class,
    byte: u8,
) -> Option<RefusedByte>
    requires room { script_count script + length read.now + 5 ≤ most_bytes }
    ensures { (k : ℕ) → result ≡ spec.first_refused (script_scan_at script) 0 (bytes_fed
        (turned_places k (references.turn (class_at class) (open_form_at form))
        (open_form_at form) read.now (class_at class) byte)) }
{
    match turn(class, form) {
        Outcome::Grows(_) => None,
        Outcome::Closes => of_char(script, meaning(form, read)),
        Outcome::Breaks => {
            let equals = is_equals(class);
            match of_broken(script, equals, form, read) {
                Some(refused) => Some(refused),
                None => {
                    let behind = broken(script, equals, form, read);
                    of_plain_byte(behind, class, byte, broken_count(equals, form, read))
                }
            }
        }
    }
}

// A reference that no semicolon ends.
fn of_broken(
    script: ScriptScan,
    equals: bool,
    form: ReferenceForm,
    read: &[u8],
) -> Option<RefusedByte>
    requires room { script_count script + length read.now + 4 ≤ most_bytes }
    ensures { result ≡ spec.first_refused (script_scan_at script) 0
        (references.flushed true equals (open_form_at form) read.now) }
{
    match broken_char(equals, form, read) {
        Some(found) => of_char(script, found),
        None => of_written(script, read),
    }
}

// The bytes of a character.
fn of_char(script: ScriptScan, found: char) -> Option<RefusedByte>
    requires room { script_count script + 4 ≤ most_bytes }
    ensures { result ≡ spec.first_refused (script_scan_at script) 0 (encode_utf8 found) }
{
    let mut buffer = [0; 4];
    of_bytes(script, found.encode_utf8(&mut buffer).as_bytes(), 0)
}

// A reference that is text as it stands.
fn of_written(script: ScriptScan, read: &[u8]) -> Option<RefusedByte>
    requires room { script_count script + length read.now + 1 ≤ most_bytes }
    ensures { result ≡ spec.first_refused (script_scan_at script) 0 (38 ∷ read.now) }
{
    match js_step::refused(false, script, b'&') {
        Some(cause) => Some(RefusedByte { number: 0, cause }),
        None => of_bytes(after_byte(script, b'&'), read, 1),
    }
}

// Bytes, the first of which has this number.
fn of_bytes(script: ScriptScan, bytes: &[u8], first: usize) -> Option<RefusedByte>
    requires room { script_count script + length bytes.now ≤ most_bytes }
    requires numbers { first + length bytes.now < 2 ^ 64 }
    ensures { result ≡ spec.first_refused (script_scan_at script) first bytes.now }
{
    let mut fed = script;
    let mut number = first;
    for byte in bytes {
        match js_step::refused(false, fed, *byte) {
            Some(cause) => return Some(RefusedByte { number, cause }),
            None => fed = after_byte(fed, *byte),
        }
        number += 1;
    }
    None
}

// A byte at which no reference is open; an ampersand opens one.
fn of_plain_byte(script: ScriptScan, class: Class, byte: u8, number: usize) -> Option<RefusedByte>
    ensures { result ≡ spec.first_refused (script_scan_at script) number
        (references.plain_bytes (class_at class) byte) }
{
    match class {
        Class::Ampersand => None,
        _ => match js_step::refused(false, script, byte) {
            Some(cause) => Some(RefusedByte { number, cause }),
            None => None,
        },
    }
}

// A reference with which a text ends, each byte of which is text as it stands.
fn of_open(text: &[u8], script: ScriptScan, reference: Option<OpenReference>) -> Option<RefusedByte>
    requires pending { script_from (script_count script) reference ≤ length text.now }
    ensures { result ≡ spec.first_refused (script_scan_at script) 0 (references.as_it_stands
        (open_reference_at text.now (length text.now) reference)) }
{
    match reference {
        None => None,
        Some(open) => of_written(script, pending(text, open.from + 1, text.len())),
    }
}

/// Why the end of a text is refused in a reference of a script.
pub fn of_open_in_script(
    text: &[u8],
    script: ScriptScan,
    reference: Option<OpenReference>,
) -> Option<Cause>
    requires pending { script_from (script_count script) reference ≤ length text.now }
    ensures error { cause_at result ≡ written_error script_feeding (script_scan_at script)
        (references.as_it_stands (open_reference_at text.now (length text.now) reference)) }
    ensures bound { IfSome result (λ cause.
        (cause.back ≤ length text.now) × (cause.shown ≤ length text.now)) }
{
    let run = cut_run(text, reference);
    located(text.len(), run, of_open(text, script, reference))
}

// A byte that is refused, where it stands itself.
fn located(index: usize, run: FedRun, refused: Option<RefusedByte>) -> Option<Cause>
    requires last { fed_last run ≤ index }
    ensures error { cause_at result ≡ located_cause index (fed_at run index) refused }
    ensures bound { IfSome result (λ cause. (cause.back ≤ index) × (cause.shown ≤ index)) }
{
    match refused {
        Some(refused) => {
            let back = index - fed_place(run, index, refused.number as u128);
            Some(Cause {
                code: refused.cause.code,
                back,
                shown: back,
            })
        }
        None => None,
    }
}

// Where that stands by which the byte of a number, or an end behind all of them, is refused: so many of those that the script has been fed
// before it.
fn standing(
    text: &[u8],
    begins: usize,
    index: usize,
    run: FedRun,
    number: u128,
    cause: ScriptCause,
) -> Cause
    requires begun { begins ≤ index }
    requires inside { index ≤ length text.now }
    requires last { fed_last run ≤ index }
    requires number { number ≤ 2 ^ 64 }
    ensures refusal { cause_stands_at index (cause_at (Some result)) ≡ Some (standing_refusal index
        (places_fed (fed_text text.now begins index)) (fed_at run index) number cause) }
    ensures bound { (result.back ≤ index) × (result.shown ≤ index) }
{
    let number = fed_before(text, begins, index) + number;
    let at = number.saturating_sub(cause.back);
    let shown = number.saturating_sub(cause.shown);
    Cause {
        code: cause.code,
        back: index - place_of(text, begins, index, run, at),
        shown: index - place_of(text, begins, index, run, shown),
    }
}
