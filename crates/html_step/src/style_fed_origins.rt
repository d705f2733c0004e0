// Origins before the bytes that a style is fed at a byte of the text, and where the text ends.
ghost use Rattle.std.specs.Prelude.{◌≡◌, ◌∷◌, ◌<◌, ◌≤◌, encode_utf8, get_or, length, true};
ghost use Rattle.css_step.specs.StyleScanViews.{style_scan_at};
ghost use Rattle.place_core.specs.page.References.{Open, as_it_stands, flushed, plain_bytes, undone_byte};
ghost use Rattle.html_scan.specs.ClassViews.{class_at};
ghost use Rattle.html_scan.specs.ScanViews.{open_form_at, open_reference_at, reference_from};
ghost use Rattle.html_step.specs.OriginViews.{origin_at};
ghost use Rattle.html_step.specs.Origins.{fed_in, style_fed_origin};

use crate::origins::Origins;
use css_step::StyleScan;
use html_scan::{
    Class, OpenReference, Outcome, ReferenceForm, broken_char, broken_style, is_equals, meaning,
    pending, turn,
};
use place_core::{Member, Quotes};

/// Before the bytes that a style is fed at a byte of the text: white space and quotes before a value are not fed.
pub fn in_style(
    origins: Origins,
    text: &[u8],
    index: usize,
    class: Class,
    quotes: Quotes,
    style: StyleScan,
    reference: Option<OpenReference>,
) -> Origins
    requires inside { index < length text.now }
    requires pending { reference_from reference ≤ index }
    ensures { (y : Member) → origin_at result y ≡ origin_at origins (style_fed_origin
        (fed_in quotes (open_reference_at text.now index reference) (class_at class)
        (get_or text.now index 0)) (style_scan_at style) y) }
{
    match quotes {
        Quotes::Bare(_) => match class {
            Class::White | Class::QuotationMark | Class::Apostrophe => origins,
            _ => behind_undone(origins, text, index, class, style, reference),
        },
        Quotes::Dq | Quotes::Sq => { behind_undone(origins, text, index, class, style, reference) }
    }
}

fn behind_undone(
    origins: Origins,
    text: &[u8],
    index: usize,
    class: Class,
    style: StyleScan,
    reference: Option<OpenReference>,
) -> Origins
    requires inside { index < length text.now }
    requires pending { reference_from reference ≤ index }
    ensures { (y : Member) → origin_at result y ≡ origin_at origins (style_fed_origin
        (undone_byte true (open_reference_at text.now index reference) (class_at class)
        (get_or text.now index 0)) (style_scan_at style) y) }
{
    match reference {
        None => behind_plain(origins, class, text[index], style),
        Some(open) => {
            let read = pending(text, open.from + 1, index);
            in_reference(origins, class, text[index], style, open.form, read)
        }
    }
}

// At a byte at which a reference is open, of which this has been read.
fn in_reference(
    origins: Origins,
    class: Class,
    byte: u8,
    style: StyleScan,
    form: ReferenceForm,
    read: &[u8],
) -> Origins
    ensures { (y : Member) → origin_at result y ≡ origin_at origins (style_fed_origin
        (undone_byte true (Open (open_form_at form) read.now) (class_at class) byte)
        (style_scan_at style) y) }
{
    match turn(class, form) {
        Outcome::Grows(_) => origins,
        Outcome::Closes => behind_char(origins, style, meaning(form, read)),
        Outcome::Breaks => {
            let equals = is_equals(class);
            let broken = behind_broken(origins, style, equals, form, read);
            behind_plain(broken, class, byte, broken_style(style, equals, form, read))
        }
    }
}

// A byte at which no reference is open; an ampersand opens one.
fn behind_plain(origins: Origins, class: Class, byte: u8, style: StyleScan) -> Origins
    ensures { (y : Member) → origin_at result y ≡ origin_at origins
        (style_fed_origin (plain_bytes (class_at class) byte) (style_scan_at style) y) }
{
    match class {
        Class::Ampersand => origins,
        _ => origins.then_style(style, byte),
    }
}

// A reference that no semicolon ends.
fn behind_broken(
    origins: Origins,
    style: StyleScan,
    equals: bool,
    form: ReferenceForm,
    read: &[u8],
) -> Origins
    ensures { (y : Member) → origin_at result y ≡ origin_at origins (style_fed_origin
        (flushed true equals (open_form_at form) read.now) (style_scan_at style) y) }
{
    match broken_char(equals, form, read) {
        Some(found) => behind_char(origins, style, found),
        None => behind_written(origins, style, read),
    }
}

/// Before the end of a text, where a reference with which it ends is text as it stands.
pub fn at_style_end(
    origins: Origins,
    text: &[u8],
    style: StyleScan,
    reference: Option<OpenReference>,
) -> Origins
    requires pending { reference_from reference ≤ length text.now }
    ensures { (y : Member) → origin_at result y ≡ origin_at origins (style_fed_origin
        (as_it_stands (open_reference_at text.now (length text.now) reference))
        (style_scan_at style) y) }
{
    match reference {
        None => origins,
        Some(open) => behind_written(origins, style, pending(text, open.from + 1, text.len())),
    }
}

// A reference that is text as it stands.
fn behind_written(origins: Origins, style: StyleScan, read: &[u8]) -> Origins
    ensures { (y : Member) → origin_at result y ≡ origin_at origins
        (style_fed_origin (38 ∷ read.now) (style_scan_at style) y) }
{
    behind_bytes(
        origins.then_style(style, b'&'),
        css_step::next(style, b'&'),
        read,
    )
}

fn behind_char(origins: Origins, style: StyleScan, found: char) -> Origins
    ensures { (y : Member) → origin_at result y ≡ origin_at origins
        (style_fed_origin (encode_utf8 found) (style_scan_at style) y) }
{
    let mut buffer = [0; 4];
    behind_bytes(origins, style, found.encode_utf8(&mut buffer).as_bytes())
}

/// Before these bytes.
pub fn behind_bytes(origins: Origins, style: StyleScan, bytes: &[u8]) -> Origins
    ensures { (y : Member) → origin_at result y ≡ origin_at origins
        (style_fed_origin bytes.now (style_scan_at style) y) }
{
    let mut behind = origins;
    let mut fed = style;
    for byte in bytes {
        behind = behind.then_style(fed, *byte);
        fed = css_step::next(fed, *byte);
    }
    behind
}
