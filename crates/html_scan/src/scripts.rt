// A value that is a script, on all paths together: what the bytes that it is fed make of its scan state, with references undone.
ghost use Rattle.std.specs.Prelude.{◌≡◌, ◌+◌, ◌-◌, ◌*◌, ◌<◌, ◌≤◌, ◌∷◌, ℕ, List, true, encode_utf8, get_or, length};
ghost use Rattle.js_step.specs.ScriptScanViews.{most_bytes, script_scan_at};
ghost use Rattle.js_step.specs.ScriptScans.{script_scan_start};
ghost use Rattle.place_core.specs.page.References.{Closed, Open, as_it_stands, flushed};
ghost use Rattle.place_core.specs.page.Tags.{feed_bytes};
ghost use Rattle.html_scan.specs.ClassViews.{class_at};
ghost use Rattle.html_scan.specs.ScanViews.{open_form_at, open_reference_at, pending_from, scan_at, script_count, script_from, script_reach};
ghost use Rattle.html_scan.specs.Scans.{script_fed_byte, script_fed_next, script_feeding};
ghost use Rattle.html_scan.specs.Scans as scans;
ghost use Rattle.html_scan.specs.Slices as slices;

use crate::class::Class;
use crate::references::{
    OpenReference, Outcome, ReferenceForm, broken_char, is_equals, meaning, turn,
};
use crate::scan::Scan;
use crate::slices::pending;
use js_step::ScriptScan;
use place_core::{Body, Js, Place, ValuePlace};

/// In a script: the scan state after a byte that does not end the value.
pub fn fed(
    text: &[u8],
    index: usize,
    class: Class,
    place: ValuePlace,
    script: ScriptScan,
    reference: Option<OpenReference>,
) -> Scan
    requires inside { index < length text.now }
    requires pending { script_from (script_count script) reference ≤ index }
    ensures scan { scan_at text.now (index + 1) result
        ≡ script_fed_next place (script_scan_at script) (open_reference_at text.now index reference)
        (class_at class) (get_or text.now index 0) }
    ensures pending { pending_from result ≤ index + 1 }
{
    match reference {
        None => at_plain_byte(class, text[index], place, script, index),
        Some(open) => {
            let read = pending(text, open.from + 1, index);
            in_reference(class, text[index], place, script, open, read, index)
        }
    }
}

// At a byte at which a reference is open, of which this has been read.
#[tactic(auto, using(crate::proofs::ScriptsFed::script_closes))]
fn in_reference(
    class: Class,
    byte: u8,
    place: ValuePlace,
    script: ScriptScan,
    open: OpenReference,
    read: &[u8],
    index: usize,
) -> Scan
    requires from { open.from + 1 ≤ index }
    requires read { length read.now ≡ index - (open.from + 1) }
    requires room { script_count script ≤ 5 * open.from + length read.now }
    ensures scan { (text : List ℕ) → index < length text → byte ≡ get_or text index 0
        → read.now ≡ slices.pending text (open.from + 1) index → scan_at text (index + 1) result
        ≡ script_fed_next place (script_scan_at script) (Open (open_form_at open.form) read.now)
        (class_at class) byte }
    ensures pending { pending_from result ≤ index + 1 }
{
    match turn(class, open.form) {
        Outcome::Grows(form) => Scan::InScript {
            place,
            script,
            reference: Some(OpenReference { form, ..open }),
        },
        Outcome::Closes => Scan::InScript {
            place,
            script: after_char(script, meaning(open.form, read)),
            reference: None,
        },
        Outcome::Breaks => {
            let script = broken(script, is_equals(class), open.form, read);
            at_plain_byte(class, byte, place, script, index)
        }
    }
}

// At a byte at which no reference is open.
fn at_plain_byte(
    class: Class,
    byte: u8,
    place: ValuePlace,
    script: ScriptScan,
    index: usize,
) -> Scan
    requires room { script_count script ≤ 5 * index }
    ensures scan { (text : List ℕ) → index < length text → scan_at text (index + 1) result
        ≡ script_fed_next place (script_scan_at script) Closed (class_at class) byte }
    ensures pending { pending_from result ≤ index + 1 }
{
    match class {
        Class::Ampersand => Scan::InScript {
            place,
            script,
            reference: Some(OpenReference {
                form: ReferenceForm::Begun,
                from: index,
            }),
        },
        _ => Scan::InScript {
            place,
            script: after_byte(script, byte),
            reference: None,
        },
    }
}

/// The place in a script that has been scanned so.
pub fn with_script(place: ValuePlace, script: ScriptScan) -> Place
    ensures { result ≡ scans.with_script place (script_scan_at script) }
{
    Place::Value(ValuePlace {
        body: Body::Js(js_step::place(script)),
        ..place
    })
}

/// The scan state of a script where a text ends, and a reference with which it ends is text as it stands.
pub fn script_at_cut(
    text: &[u8],
    script: ScriptScan,
    reference: Option<OpenReference>,
) -> ScriptScan
    requires pending { script_from (script_count script) reference ≤ length text.now }
    ensures { script_scan_at result ≡ feed_bytes script_feeding (script_scan_at script)
        (as_it_stands (open_reference_at text.now (length text.now) reference)) }
{
    match reference {
        None => script,
        Some(open) => written(script, pending(text, open.from + 1, text.len())),
    }
}

/// Behind a reference that no semicolon ends.
pub fn broken(script: ScriptScan, equals: bool, form: ReferenceForm, read: &[u8]) -> ScriptScan
    requires room { script_count script + length read.now + 4 ≤ most_bytes }
    ensures fed { script_scan_at result ≡ feed_bytes script_feeding (script_scan_at script)
        (flushed true equals (open_form_at form) read.now) }
    ensures count { script_count result ≤ script_count script + length read.now + 4 }
{
    match broken_char(equals, form, read) {
        Some(found) => after_char(script, found),
        None => written(script, read),
    }
}

// Behind a reference that is text as it stands.
fn written(script: ScriptScan, read: &[u8]) -> ScriptScan
    requires room { script_count script + length read.now + 1 ≤ most_bytes }
    ensures fed { script_scan_at result
        ≡ feed_bytes script_feeding (script_scan_at script) (38 ∷ read.now) }
    ensures count { script_count result ≤ script_count script + length read.now + 1 }
{
    after_bytes(after_byte(script, b'&'), read)
}

/// Behind a character.
pub fn after_char(script: ScriptScan, found: char) -> ScriptScan
    requires room { script_count script + 4 ≤ most_bytes }
    ensures fed { script_scan_at result
        ≡ feed_bytes script_feeding (script_scan_at script) (encode_utf8 found) }
    ensures count { script_count result ≤ script_count script + 4 }
{
    let mut buffer = [0; 4];
    after_bytes(script, found.encode_utf8(&mut buffer).as_bytes())
}

/// Behind these bytes.
pub fn after_bytes(script: ScriptScan, bytes: &[u8]) -> ScriptScan
    requires room { script_count script + length bytes.now ≤ most_bytes }
    ensures fed { script_scan_at result
        ≡ feed_bytes script_feeding (script_scan_at script) bytes.now }
    ensures count { script_count result ≤ script_count script + length bytes.now }
    ensures reach { script_reach result ≤ script_reach script + length bytes.now }
{
    let mut fed = script;
    for byte in bytes {
        fed = after_byte(fed, *byte);
    }
    fed
}

/// The scan state at the beginning of a text at a place.
pub fn begun(place: Js) -> ScriptScan
    ensures scan { script_scan_at result ≡ script_scan_start place }
    ensures count { script_count result ≡ 0 }
    ensures reach { script_reach result ≡ 0 }
{
    js_step::start(place)
}

/// Behind a byte.
pub fn after_byte(script: ScriptScan, byte: u8) -> ScriptScan
    requires room { script_count script ≤ most_bytes }
    ensures fed { script_scan_at result ≡ script_fed_byte (script_scan_at script) byte }
    ensures count { script_count result ≤ script_count script + 1 }
    ensures reach { script_reach result ≤ script_reach script + 1 }
{
    js_step::next(script, byte)
}
