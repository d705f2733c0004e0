// What shows that a text is refused in a script: by the bytes that it is fed, the first that is refused, and then by its end.
ghost use Rattle.std.specs.Prelude.{◌≡◌, ◌+◌, ◌<◌, ◌≤◌, ◌∷◌, ℕ, List, encode_utf8, false, get_or, length, option_map, true};
ghost use Rattle.js_step.specs.ScriptEvidence.{script_code_shows, script_evidence_at};
ghost use Rattle.js_step.specs.ScriptScans.{script_scan_cut_error};
ghost use Rattle.js_step.specs.ScriptScanViews.{most_bytes, script_scan_at};
ghost use Rattle.place_core.specs.page.References.{Open, as_it_stands, flushed, plain_bytes, settled, undone_byte};
ghost use Rattle.place_core.specs.page.Tags.{feed_bytes};
ghost use Rattle.place_core.specs.declared.member.Member.TheVariants as member;
ghost use Rattle.html_scan.specs.ClassViews.{class_at};
ghost use Rattle.html_scan.specs.ScanViews.{open_form_at, open_reference_at, pending_from, scan_at, script_count, script_from};
ghost use Rattle.html_scan.specs.Scans.{At, ends_quoted, quoted_places, script_feeding};
ghost use Rattle.html_scan.specs.ScriptPlaces.{read_between};
ghost use Rattle.html_step.specs.OriginViews.{evidence_at};
ghost use Rattle.html_step.specs.Origins.{bytes_of_places, script_back, script_byte_shown, script_end_shown, script_value_ends, script_evidence, script_step_shows, script_told_shown};
ghost use Rattle.html_step.specs.Origins as spec;
ghost use Rattle.html_step.specs.ScriptShowing.{bytes_at, script_end_shows, script_fed_shown};

use crate::evidence::Evidence;
use crate::script_element_showing;
use crate::script_origins::script_origin;
use crate::style_showing::first_shown;
use html_scan::{
    Class, OpenReference, Outcome, ReferenceForm, Scan, ScriptPending, after_script_byte,
    begun_script, broken_char, broken_script, ends_between, is_equals, is_told_at_node_end,
    meaning, pending, script_at_cut, stops, turn,
};
use js_step::{ScriptScan, ScriptShown};
use place_core::{Body, Code, Member, Place, Quotes};

/// What shows that a script refuses what a byte of a text feeds it, if it does.
pub fn script_shown(text: &[u8], index: usize, class: Class, scan: Scan) -> Option<Evidence>
    requires inside { index < length text.now }
    requires pending { pending_from scan ≤ index }
    ensures { option_map evidence_at result ≡ spec.script_shown (scan_at text.now index scan)
        (class_at class) (get_or text.now index 0) }
{
    match scan {
        Scan::InScript {
            place,
            script,
            reference,
        } => at_byte(text, index, class, place.quotes, script, reference),
        Scan::InScriptElement { script, pending } => script_element_showing::at_byte(
            text, index, class, script, pending,
        ),
        Scan::At(place) => at_place(text, index, class, place),
        _ => None,
    }
}

// At a place, at which a text begins.
fn at_place(text: &[u8], index: usize, class: Class, place: Place) -> Option<Evidence>
    requires inside { index < length text.now }
    ensures { option_map evidence_at result
        ≡ spec.script_shown (At place) (class_at class) (get_or text.now index 0) }
{
    match place {
        Place::Value(value) => match value.body {
            Body::Js(js) => at_byte(text, index, class, value.quotes, begun_script(js), None),
            _ => None,
        },
        Place::Script(js) => {
            let script = begun_script(js);
            script_element_showing::at_byte(text, index, class, script, ScriptPending::Nothing)
        }
        _ => None,
    }
}

/// What shows that a script refuses the end of a text, if it does.
pub fn shown_at_cut(text: &[u8], scan: Scan) -> Option<Evidence>
    requires pending { pending_from scan ≤ length text.now }
    ensures { option_map evidence_at result
        ≡ script_end_shown (scan_at text.now (length text.now) scan) }
{
    match scan {
        Scan::InScript {
            script,
            reference,
            ..
        } => back(script, told_at_cut(text, script, reference)),
        Scan::InScriptElement { script, pending } => script_element_showing::at_cut(
            text, script, pending,
        ),
        _ => None,
    }
}

fn at_byte(
    text: &[u8],
    index: usize,
    class: Class,
    quotes: Quotes,
    script: ScriptScan,
    reference: Option<OpenReference>,
) -> Option<Evidence>
    requires inside { index < length text.now }
    requires pending { script_from (script_count script) reference ≤ index }
    ensures { option_map evidence_at result ≡ script_step_shows quotes (script_scan_at script)
        (open_reference_at text.now index reference) (class_at class) (get_or text.now index 0) }
{
    back(script, told(text, index, class, quotes, script, reference))
}

/// The same before all that the script is fed.
pub fn back(script: ScriptScan, shown: Option<Evidence>) -> Option<Evidence>
    ensures { option_map evidence_at result
        ≡ option_map (script_back (script_scan_at script)) (option_map evidence_at shown) }
{
    match shown {
        Some(Evidence::One(member)) => Some(Evidence::One(script_origin(script, member))),
        Some(Evidence::Two(one, other)) => {
            Some(Evidence::Two(script_origin(script, one), script_origin(script, other)))
        }
        other => other,
    }
}

fn told(
    text: &[u8],
    index: usize,
    class: Class,
    quotes: Quotes,
    script: ScriptScan,
    reference: Option<OpenReference>,
) -> Option<Evidence>
    requires inside { index < length text.now }
    requires pending { script_from (script_count script) reference ≤ index }
    ensures { option_map evidence_at result
        ≡ script_told_shown false (script_value_ends (ends_quoted quotes (class_at class)))
        (bytes_of_places (quoted_places quotes 0 (open_reference_at text.now index reference)
        (class_at class) (get_or text.now index 0))) (script_scan_at script) }
{
    let open = open_between(quotes, reference);
    let shown = of_fed(text, index, class, stops(quotes, class), script, open);
    let end = of_end(
        behind(text, index, script, reference),
        ends_between(quotes, class),
    );
    first_shown(shown, end)
}

// The reference that is open, which is none where the value has not begun.
fn open_between(quotes: Quotes, reference: Option<OpenReference>) -> Option<OpenReference>
    ensures read { (text : List ℕ) (k : ℕ) → open_reference_at text k result
        ≡ read_between quotes (open_reference_at text k reference) }
    ensures from { (count k : ℕ) → script_from count reference ≤ k → script_from count result ≤ k }
{
    match quotes {
        Quotes::Bare(bare) if !bare.uq => None,
        _ => reference,
    }
}

fn told_at_cut(
    text: &[u8],
    script: ScriptScan,
    reference: Option<OpenReference>,
) -> Option<Evidence>
    requires pending { script_from (script_count script) reference ≤ length text.now }
    ensures { option_map evidence_at result ≡ script_told_shown false script_scan_cut_error
        (as_it_stands (open_reference_at text.now (length text.now) reference))
        (script_scan_at script) }
{
    let shown = of_open(text, script, reference);
    let end = of_cut(script_at_cut(text, script, reference));
    first_shown(shown, end)
}

// A reference with which a text ends, each byte of which is text as it stands.
fn of_open(text: &[u8], script: ScriptScan, reference: Option<OpenReference>) -> Option<Evidence>
    requires pending { script_from (script_count script) reference ≤ length text.now }
    ensures { option_map evidence_at result ≡ script_fed_shown false
        (as_it_stands (open_reference_at text.now (length text.now) reference))
        (script_scan_at script) }
{
    match reference {
        None => None,
        Some(open) => of_written(script, pending(text, open.from + 1, text.len())),
    }
}

// Behind the reference that is open where the value ends.
fn behind(
    text: &[u8],
    index: usize,
    script: ScriptScan,
    reference: Option<OpenReference>,
) -> ScriptScan
    requires inside { index < length text.now }
    requires pending { script_from (script_count script) reference ≤ index }
    ensures { script_scan_at result ≡ feed_bytes script_feeding (script_scan_at script)
        (settled true (open_reference_at text.now index reference)) }
{
    match reference {
        None => script,
        Some(open) => {
            let read = pending(text, open.from + 1, index);
            broken_script(script, false, open.form, read)
        }
    }
}

// The end of the value, if the byte ends it.
fn of_end(script: ScriptScan, ends: bool) -> Option<Evidence>
    ensures { option_map evidence_at result ≡ script_end_shows
        (script_value_ends ends (script_scan_at script)) (script_scan_at script) }
{
    if !ends {
        return None;
    }
    match js_step::refused_at_end(script) {
        Some(cause) if !is_told_at_node_end(cause) => Some(by_end(script, cause.code)),
        _ => None,
    }
}

/// The end of the node.
pub fn of_cut(script: ScriptScan) -> Option<Evidence>
    ensures { option_map evidence_at result ≡ script_end_shows
        (script_scan_cut_error (script_scan_at script)) (script_scan_at script) }
{
    match js_step::refused_at_cut(script) {
        Some(cause) => Some(by_end(script, cause.code)),
        None => None,
    }
}

/// An end, which is refused by this code.
pub fn by_end(script: ScriptScan, code: Code) -> Evidence
    ensures { evidence_at result ≡ script_evidence
        (script_code_shows (script_scan_at script) member.Whole code) }
{
    of_shown(js_step::shown_by(script, Member::Whole, code))
}

fn of_shown(shown: ScriptShown) -> Evidence
    ensures { evidence_at result ≡ script_evidence (script_evidence_at shown) }
{
    match shown {
        ScriptShown::One(member) => Evidence::One(member),
        ScriptShown::EitherSlash => Evidence::Two(Member::SenseDiv, Member::SenseRe),
    }
}

// The bytes that a byte feeds it.
fn of_fed(
    text: &[u8],
    index: usize,
    class: Class,
    stops: bool,
    script: ScriptScan,
    reference: Option<OpenReference>,
) -> Option<Evidence>
    requires inside { index < length text.now }
    requires pending { script_from (script_count script) reference ≤ index }
    ensures { option_map evidence_at result ≡ script_fed_shown false
        (bytes_at stops (open_reference_at text.now index reference) (class_at class)
        (get_or text.now index 0)) (script_scan_at script) }
{
    match reference {
        None if stops => None,
        None => of_plain_byte(script, class, text[index]),
        Some(open) => {
            let read = pending(text, open.from + 1, index);
            if stops {
                return of_broken(script, false, open.form, read);
            }
            in_reference(script, open.form, read, class, text[index])
        }
    }
}

// At a byte at which a reference is open, of which this has been read.
fn in_reference(
    script: ScriptScan,
    form: ReferenceForm,
    read: &[u8],
    class: Class,
    byte: u8,
) -> Option<Evidence>
    requires room { script_count script + length read.now + 5 ≤ most_bytes }
    ensures { option_map evidence_at result ≡ script_fed_shown false
        (undone_byte true (Open (open_form_at form) read.now) (class_at class) byte)
        (script_scan_at script) }
{
    match turn(class, form) {
        Outcome::Grows(_) => None,
        Outcome::Closes => of_char(script, meaning(form, read)),
        Outcome::Breaks => {
            let equals = is_equals(class);
            let fed = broken_script(script, equals, form, read);
            let shown = of_broken(script, equals, form, read);
            let later = of_plain_byte(fed, class, byte);
            first_shown(shown, later)
        }
    }
}

// A reference that no semicolon ends.
fn of_broken(script: ScriptScan, equals: bool, form: ReferenceForm, read: &[u8]) -> Option<Evidence>
    requires room { script_count script + length read.now + 4 ≤ most_bytes }
    ensures { option_map evidence_at result ≡ script_fed_shown false
        (flushed true equals (open_form_at form) read.now) (script_scan_at script) }
{
    match broken_char(equals, form, read) {
        Some(found) => of_char(script, found),
        None => of_written(script, read),
    }
}

// A reference that is text as it stands.
fn of_written(script: ScriptScan, read: &[u8]) -> Option<Evidence>
    requires room { script_count script + length read.now + 1 ≤ most_bytes }
    ensures { option_map evidence_at result
        ≡ script_fed_shown false (38 ∷ read.now) (script_scan_at script) }
{
    match of_byte(false, script, b'&') {
        Some(shown) => Some(shown),
        None => of_bytes(false, after_script_byte(script, b'&'), read),
    }
}

fn of_char(script: ScriptScan, found: char) -> Option<Evidence>
    requires room { script_count script + 4 ≤ most_bytes }
    ensures { option_map evidence_at result
        ≡ script_fed_shown false (encode_utf8 found) (script_scan_at script) }
{
    let mut buffer = [0; 4];
    of_bytes(false, script, found.encode_utf8(&mut buffer).as_bytes())
}

/// These bytes; `element` says whether the script is an element's.
pub fn of_bytes(element: bool, script: ScriptScan, bytes: &[u8]) -> Option<Evidence>
    requires room { script_count script + length bytes.now ≤ most_bytes }
    ensures { option_map evidence_at result
        ≡ script_fed_shown element bytes.now (script_scan_at script) }
{
    let mut fed = script;
    for byte in bytes {
        match of_byte(element, fed, *byte) {
            Some(shown) => return Some(shown),
            None => fed = after_script_byte(fed, *byte),
        }
    }
    None
}

// A byte at which no reference is open; an ampersand opens one.
fn of_plain_byte(script: ScriptScan, class: Class, byte: u8) -> Option<Evidence>
    ensures { option_map evidence_at result
        ≡ script_fed_shown false (plain_bytes (class_at class) byte) (script_scan_at script) }
{
    match class {
        Class::Ampersand => None,
        _ => of_byte(false, script, byte),
    }
}

/// One byte of a script.
pub fn of_byte(element: bool, script: ScriptScan, byte: u8) -> Option<Evidence>
    ensures { option_map evidence_at result
        ≡ script_byte_shown element (script_scan_at script) byte }
{
    match js_step::shown_at_byte(element, script, byte) {
        Some(shown) => Some(of_shown(shown)),
        None => None,
    }
}
