// A value that is a URL, on all paths together: what the bytes that it is fed make of it, with references undone.
ghost use Rattle.std.specs.Prelude.{◌≡◌, ◌+◌, ◌<◌, ◌≤◌, ◌∷◌, ℕ, List, true, encode_utf8, get_or, length};
ghost use Rattle.place_core.specs.page.Classes.{is_equals_sign};
ghost use Rattle.place_core.specs.page.References.{Closed, as_it_stands, flushed, Open};
ghost use Rattle.place_core.specs.page.Tags.{feed_bytes};
ghost use Rattle.place_core.specs.declared.body.Body.TheVariants as body;
ghost use Rattle.url_lexer.specs.Classes.{url_class_of};
ghost use Rattle.url_lexer.specs.Triples.{next_triple};
ghost use Rattle.url_step.specs.PartSets.{parts_next};
ghost use Rattle.html_scan.specs.ClassViews.{class_at};
ghost use Rattle.html_scan.specs.ScanViews.{open_form_at, open_reference_at, pending_from, reference_from, scan_at, triple_at};
ghost use Rattle.html_scan.specs.Scans.{parts_feeding, triple_behind, value_fed, with_parts};
ghost use Rattle.html_scan.specs.Scans as scans;
ghost use Rattle.html_scan.specs.Slices as slices;
ghost use Rattle.place_core.specs.page.References as spec;

use crate::class::Class;
use crate::references::{
    OpenReference, Outcome, ReferenceForm, broken_char, is_equals, meaning, turn,
};
use crate::scan::Scan;
use crate::slices::pending;
use crate::triple::{Triple, triple_after};
use place_core::{Body, Parts, Place, Quotes, ValuePlace};

/// A URL where it has been read to: the sets of its parts, and the percent triple in which it is.
#[derive(Clone, Copy)]
pub struct UrlPoint {
    pub parts: Parts,
    pub triple: Triple,
}

/// In a URL, between these quotes: the scan state after a byte that does not end the value.
pub fn in_url(
    text: &[u8],
    index: usize,
    class: Class,
    place: ValuePlace,
    quotes: Quotes,
    url: UrlPoint,
    reference: Option<OpenReference>,
) -> Scan
    requires inside { index < length text.now }
    requires pending { reference_from reference ≤ index }
    ensures scan { scan_at text.now (index + 1) result
        ≡ value_fed place quotes (body.Url url.parts) (triple_at url.triple)
        (open_reference_at text.now index reference) (class_at class) (get_or text.now index 0) }
    ensures pending { pending_from result ≤ index + 1 }
{
    match reference {
        None => at_plain_byte(class, text[index], place, quotes, url, index),
        Some(open) => {
            let read = pending(text, open.from + 1, index);
            in_reference(class, text[index], place, quotes, url, open, read, index)
        }
    }
}

// At a byte at which a reference is open, of which this has been read.
#[tactic(auto, using(crate::proofs::UrlsFed::fed_closes))]
fn in_reference(
    class: Class,
    byte: u8,
    place: ValuePlace,
    quotes: Quotes,
    url: UrlPoint,
    open: OpenReference,
    read: &[u8],
    index: usize,
) -> Scan
    requires from { open.from + 1 ≤ index }
    ensures scan { (text : List ℕ) → index < length text → byte ≡ get_or text index 0
        → read.now ≡ slices.pending text (open.from + 1) index → scan_at text (index + 1) result
        ≡ value_fed place quotes (body.Url url.parts) (triple_at url.triple)
        (Open (open_form_at open.form) read.now) (class_at class) byte }
    ensures pending { pending_from result ≤ index + 1 }
{
    match turn(class, open.form) {
        Outcome::Grows(form) => at_point(place, quotes, url, Some(OpenReference { form, ..open })),
        Outcome::Closes => at_point(place, quotes, closed(url, open.form, read), None),
        Outcome::Breaks => {
            let url = broken(url, is_equals(class), open.form, read);
            at_plain_byte(class, byte, place, quotes, url, index)
        }
    }
}

// At a byte at which no reference is open.
fn at_plain_byte(
    class: Class,
    byte: u8,
    place: ValuePlace,
    quotes: Quotes,
    url: UrlPoint,
    index: usize,
) -> Scan
    ensures scan { (text : List ℕ) → index < length text → scan_at text (index + 1) result
        ≡ value_fed place quotes (body.Url url.parts) (triple_at url.triple) Closed
        (class_at class) byte }
    ensures pending { pending_from result ≤ index + 1 }
{
    match class {
        Class::Ampersand => at_point(
            place,
            quotes,
            url,
            Some(OpenReference {
                form: ReferenceForm::Begun,
                from: index,
            }),
        ),
        _ => at_point(place, quotes, after_byte(url, byte), None),
    }
}

// The scan state at a point of a URL: a place, where it is neither in a triple nor in a reference.
fn at_point(
    place: ValuePlace,
    quotes: Quotes,
    url: UrlPoint,
    reference: Option<OpenReference>,
) -> Scan
    ensures scan { (text : List ℕ) (k : ℕ) → scan_at text k result
        ≡ scans.url_scan (with_parts place quotes url.parts) (triple_at url.triple)
        (open_reference_at text k reference) }
    ensures pending { pending_from result ≤ reference_from reference }
{
    let place = ValuePlace {
        quotes,
        body: Body::Url(url.parts),
        ..place
    };
    match url.triple {
        Triple::None => match reference {
            None => Scan::At(Place::Value(place)),
            Some(_) => Scan::InUrl {
                place,
                triple: Triple::None,
                reference,
            },
        },
        Triple::AfterPercent => Scan::InUrl {
            place,
            triple: Triple::AfterPercent,
            reference,
        },
        Triple::AfterDigit => Scan::InUrl {
            place,
            triple: Triple::AfterDigit,
            reference,
        },
    }
}

/// The parts of a URL where a text ends, and a reference with which it ends is text as it stands.
pub fn parts_at_cut(text: &[u8], parts: Parts, reference: Option<OpenReference>) -> Parts
    requires pending { reference_from reference ≤ length text.now }
    ensures { result ≡ feed_bytes parts_feeding parts
        (as_it_stands (open_reference_at text.now (length text.now) reference)) }
{
    match reference {
        None => parts,
        Some(open) => {
            let read = pending(text, open.from + 1, text.len());
            parts_after(url_step::next(parts, b'&'), read)
        }
    }
}

/// The percent triple in which a text ends.
pub fn triple_at_cut(text: &[u8], triple: Triple, reference: Option<OpenReference>) -> Triple
    requires pending { reference_from reference ≤ length text.now }
    ensures { triple_at result ≡ triple_behind (triple_at triple)
        (as_it_stands (open_reference_at text.now (length text.now) reference)) }
{
    match reference {
        None => triple,
        Some(open) => {
            let read = pending(text, open.from + 1, text.len());
            triple_after_bytes(triple_after(triple, b'&'), read)
        }
    }
}

// Behind a reference that no semicolon ends.
fn broken(url: UrlPoint, equals: bool, form: ReferenceForm, read: &[u8]) -> UrlPoint
    ensures parts { result.parts ≡ feed_bytes parts_feeding url.parts
        (flushed true equals (open_form_at form) read.now) }
    ensures triple { triple_at result.triple ≡ triple_behind (triple_at url.triple)
        (flushed true equals (open_form_at form) read.now) }
{
    match broken_char(equals, form, read) {
        Some(found) => after_char(url, found),
        None => written(url, read),
    }
}

/// The parts of a URL behind a reference that no semicolon ends.
pub fn broken_parts(parts: Parts, equals: bool, form: ReferenceForm, read: &[u8]) -> Parts
    ensures { result ≡ feed_bytes parts_feeding parts
        (flushed true equals (open_form_at form) read.now) }
{
    let url = UrlPoint {
        parts,
        triple: Triple::None,
    };
    broken(url, equals, form, read).parts
}

// Behind a reference that its semicolon ends.
fn closed(url: UrlPoint, form: ReferenceForm, read: &[u8]) -> UrlPoint
    ensures parts { result.parts ≡ feed_bytes parts_feeding url.parts
        (encode_utf8 (spec.meaning (open_form_at form) read.now)) }
    ensures triple { triple_at result.triple ≡ triple_behind (triple_at url.triple)
        (encode_utf8 (spec.meaning (open_form_at form) read.now)) }
{
    after_char(url, meaning(form, read))
}

// Behind a reference that is text as it stands.
fn written(url: UrlPoint, read: &[u8]) -> UrlPoint
    ensures parts { result.parts ≡ feed_bytes parts_feeding url.parts (38 ∷ read.now) }
    ensures triple { triple_at result.triple
        ≡ triple_behind (triple_at url.triple) (38 ∷ read.now) }
{
    after_bytes(after_byte(url, b'&'), read)
}

fn after_char(url: UrlPoint, found: char) -> UrlPoint
    ensures parts { result.parts ≡ feed_bytes parts_feeding url.parts (encode_utf8 found) }
    ensures triple { triple_at result.triple
        ≡ triple_behind (triple_at url.triple) (encode_utf8 found) }
{
    let mut buffer = [0; 4];
    after_bytes(url, found.encode_utf8(&mut buffer).as_bytes())
}

fn after_bytes(url: UrlPoint, bytes: &[u8]) -> UrlPoint
    ensures parts { result.parts ≡ feed_bytes parts_feeding url.parts bytes.now }
    ensures triple { triple_at result.triple ≡ triple_behind (triple_at url.triple) bytes.now }
{
    UrlPoint {
        parts: parts_after(url.parts, bytes),
        triple: triple_after_bytes(url.triple, bytes),
    }
}

fn parts_after(parts: Parts, bytes: &[u8]) -> Parts
    ensures { result ≡ feed_bytes parts_feeding parts bytes.now }
{
    let mut fed = parts;
    for byte in bytes {
        fed = url_step::next(fed, *byte);
    }
    fed
}

fn triple_after_bytes(triple: Triple, bytes: &[u8]) -> Triple
    ensures { triple_at result ≡ triple_behind (triple_at triple) bytes.now }
{
    let mut read = triple;
    for byte in bytes {
        read = triple_after(read, *byte);
    }
    read
}

fn after_byte(url: UrlPoint, byte: u8) -> UrlPoint
    ensures parts { result.parts ≡ parts_next url.parts (url_class_of byte) byte }
    ensures triple { triple_at result.triple
        ≡ next_triple (triple_at url.triple) (url_class_of byte) }
{
    UrlPoint {
        parts: url_step::next(url.parts, byte),
        triple: triple_after(url.triple, byte),
    }
}
