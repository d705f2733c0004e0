// A value that is a style, on all paths together: what the bytes that it is fed make of its scan state, with references undone.
ghost use Rattle.std.specs.Prelude.{◌≡◌, ◌+◌, ◌<◌, ◌≤◌, ◌∷◌, ℕ, List, true, encode_utf8, get_or, length};
ghost use Rattle.css_step.specs.StyleScanViews.{style_scan_at};
ghost use Rattle.place_core.specs.page.References.{Closed, Open, as_it_stands, flushed};
ghost use Rattle.place_core.specs.page.Tags.{feed_bytes};
ghost use Rattle.html_scan.specs.ClassViews.{class_at};
ghost use Rattle.html_scan.specs.ScanViews.{open_form_at, open_reference_at, pending_from, reference_from, scan_at};
ghost use Rattle.html_scan.specs.Scans.{style_fed, style_feeding, style_scan};
ghost use Rattle.html_scan.specs.Scans as scans;
ghost use Rattle.html_scan.specs.Slices as slices;

use crate::class::Class;
use crate::references::{
    OpenReference, Outcome, ReferenceForm, broken_char, is_equals, meaning, turn,
};
use crate::scan::Scan;
use crate::slices::pending;
use css_step::StyleScan;
use place_core::{Body, Place, ValuePlace};

/// In a style: the scan state after a byte that does not end the value.
pub fn fed(
    text: &[u8],
    index: usize,
    class: Class,
    place: ValuePlace,
    style: StyleScan,
    reference: Option<OpenReference>,
) -> Scan
    requires inside { index < length text.now }
    requires pending { reference_from reference ≤ index }
    ensures scan { scan_at text.now (index + 1) result
        ≡ style_fed place (style_scan_at style) (open_reference_at text.now index reference)
        (class_at class) (get_or text.now index 0) }
    ensures pending { pending_from result ≤ index + 1 }
{
    match reference {
        None => at_plain_byte(class, text[index], place, style, index),
        Some(open) => {
            let read = pending(text, open.from + 1, index);
            in_reference(class, text[index], place, style, open, read, index)
        }
    }
}

// At a byte at which a reference is open, of which this has been read.
#[tactic(auto, using(crate::proofs::StylesFed::style_closes))]
fn in_reference(
    class: Class,
    byte: u8,
    place: ValuePlace,
    style: StyleScan,
    open: OpenReference,
    read: &[u8],
    index: usize,
) -> Scan
    requires from { open.from + 1 ≤ index }
    ensures scan { (text : List ℕ) → index < length text → byte ≡ get_or text index 0
        → read.now ≡ slices.pending text (open.from + 1) index → scan_at text (index + 1) result
        ≡ style_fed place (style_scan_at style) (Open (open_form_at open.form) read.now)
        (class_at class) byte }
    ensures pending { pending_from result ≤ index + 1 }
{
    match turn(class, open.form) {
        Outcome::Grows(form) => at_scan(place, style, Some(OpenReference { form, ..open })),
        Outcome::Closes => at_scan(place, after_char(style, meaning(open.form, read)), None),
        Outcome::Breaks => {
            let style = broken(style, is_equals(class), open.form, read);
            at_plain_byte(class, byte, place, style, index)
        }
    }
}

// At a byte at which no reference is open.
fn at_plain_byte(class: Class, byte: u8, place: ValuePlace, style: StyleScan, index: usize) -> Scan
    ensures scan { (text : List ℕ) → index < length text → scan_at text (index + 1) result
        ≡ style_fed place (style_scan_at style) Closed (class_at class) byte }
    ensures pending { pending_from result ≤ index + 1 }
{
    match class {
        Class::Ampersand => at_scan(
            place,
            style,
            Some(OpenReference {
                form: ReferenceForm::Begun,
                from: index,
            }),
        ),
        _ => at_scan(place, css_step::next(style, byte), None),
    }
}

// The scan state in a style that has been scanned so: a place, where it is neither in a lexeme nor in a reference.
fn at_scan(place: ValuePlace, style: StyleScan, reference: Option<OpenReference>) -> Scan
    ensures scan { (text : List ℕ) (k : ℕ) → scan_at text k result
        ≡ style_scan place (style_scan_at style) (open_reference_at text k reference) }
    ensures pending { pending_from result ≤ reference_from reference }
{
    match reference {
        None if css_step::is_start(style) => Scan::At(with_style(place, style)),
        _ => Scan::InStyle {
            place,
            style,
            reference,
        },
    }
}

/// The place in a style that has been scanned so.
pub fn with_style(place: ValuePlace, style: StyleScan) -> Place
    ensures { result ≡ scans.with_style place (style_scan_at style) }
{
    Place::Value(ValuePlace {
        body: Body::Css(css_step::place(style)),
        ..place
    })
}

/// The scan state of a style where a text ends, and a reference with which it ends is text as it stands.
pub fn style_at_cut(text: &[u8], style: StyleScan, reference: Option<OpenReference>) -> StyleScan
    requires pending { reference_from reference ≤ length text.now }
    ensures { style_scan_at result ≡ feed_bytes style_feeding (style_scan_at style)
        (as_it_stands (open_reference_at text.now (length text.now) reference)) }
{
    match reference {
        None => style,
        Some(open) => written(style, pending(text, open.from + 1, text.len())),
    }
}

/// Behind a reference that no semicolon ends.
pub fn broken(style: StyleScan, equals: bool, form: ReferenceForm, read: &[u8]) -> StyleScan
    ensures { style_scan_at result ≡ feed_bytes style_feeding (style_scan_at style)
        (flushed true equals (open_form_at form) read.now) }
{
    match broken_char(equals, form, read) {
        Some(found) => after_char(style, found),
        None => written(style, read),
    }
}

// Behind a reference that is text as it stands.
fn written(style: StyleScan, read: &[u8]) -> StyleScan
    ensures { style_scan_at result
        ≡ feed_bytes style_feeding (style_scan_at style) (38 ∷ read.now) }
{
    after_bytes(css_step::next(style, b'&'), read)
}

fn after_char(style: StyleScan, found: char) -> StyleScan
    ensures { style_scan_at result
        ≡ feed_bytes style_feeding (style_scan_at style) (encode_utf8 found) }
{
    let mut buffer = [0; 4];
    after_bytes(style, found.encode_utf8(&mut buffer).as_bytes())
}

/// Behind these bytes.
pub fn after_bytes(style: StyleScan, bytes: &[u8]) -> StyleScan
    ensures { style_scan_at result
        ≡ feed_bytes style_feeding (style_scan_at style) bytes.now }
{
    let mut fed = style;
    for byte in bytes {
        fed = css_step::next(fed, *byte);
    }
    fed
}
