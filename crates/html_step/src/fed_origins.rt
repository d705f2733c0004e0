// Origins before the bytes that a URL, a style or a script is fed at a byte of the text, and where the text ends.
ghost use Rattle.std.specs.Prelude.{◌≡◌, ◌∷◌, ◌<◌, ◌≤◌, encode_utf8, get_or, length, true};
ghost use Rattle.place_core.specs.page.References.{Open, as_it_stands, flushed, plain_bytes, undone_byte};
ghost use Rattle.html_scan.specs.ClassViews.{class_at};
ghost use Rattle.html_scan.specs.ScanViews.{open_form_at, open_reference_at, pending_from, reference_from, scan_at};
ghost use Rattle.html_step.specs.OriginViews.{origin_at};
ghost use Rattle.html_step.specs.Origins.{body_origin, fed_in, fed_origin, place_fed_origin, scan_fed_origin};

use crate::element_origins;
use crate::origins::Origins;
use crate::style_fed_origins::{at_style_end, in_style};
use html_scan::{
    Class, OpenReference, Outcome, ReferenceForm, Scan, broken_char, broken_parts, is_equals,
    meaning, pending, turn,
};
use place_core::{Body, Member, Parts, Place, Quotes, ValuePlace};

/// Before the bytes that a URL is fed at a byte of the text; elsewhere they stay.
pub fn behind_byte(origins: Origins, text: &[u8], index: usize, class: Class, scan: Scan) -> Origins
    requires inside { index < length text.now }
    requires pending { pending_from scan ≤ index }
    ensures { (y : Member) → origin_at result y ≡ origin_at origins (scan_fed_origin
        (scan_at text.now index scan) (class_at class) (get_or text.now index 0) y) }
{
    match scan {
        Scan::At(place) => at_place(origins, text, index, class, place),
        Scan::InUrl {
            place,
            reference,
            ..
        } => { in_value(origins, text, index, class, place, reference) }
        Scan::InStyle {
            place,
            style,
            reference,
        } => { in_style(origins, text, index, class, place.quotes, style, reference) }
        Scan::InScript { script, .. } | Scan::InScriptElement { script, .. } => {
            origins.then_script(script)
        }
        Scan::InStyleElement(style) => {
            element_origins::in_element(origins, class, text[index], style)
        }
        Scan::AfterStyleLess(style) => {
            element_origins::after_less(origins, class, text[index], style)
        }
        Scan::InStyleName { style, from } => {
            element_origins::in_name(origins, text, index, class, style, from)
        }
        _ => origins,
    }
}

fn at_place(origins: Origins, text: &[u8], index: usize, class: Class, place: Place) -> Origins
    requires inside { index < length text.now }
    ensures { (y : Member) → origin_at result y ≡ origin_at origins
        (place_fed_origin place (class_at class) (get_or text.now index 0) y) }
{
    match place {
        Place::Value(value) => in_value(origins, text, index, class, value, None),
        Place::Style(css) => {
            element_origins::in_element(origins, class, text[index], css_step::start(css))
        }
        Place::Script(js) => origins.then_script(js_step::start(js)),
        _ => origins,
    }
}

fn in_value(
    origins: Origins,
    text: &[u8],
    index: usize,
    class: Class,
    place: ValuePlace,
    reference: Option<OpenReference>,
) -> Origins
    requires inside { index < length text.now }
    requires pending { reference_from reference ≤ index }
    ensures { (y : Member) → origin_at result y ≡ origin_at origins (body_origin place.body
        (fed_in place.quotes (open_reference_at text.now index reference) (class_at class)
        (get_or text.now index 0)) y) }
{
    match place.body {
        Body::Url(parts) => {
            in_quotes(origins, text, index, class, place.quotes, parts, reference)
        }
        Body::Css(css) => {
            let style = css_step::start(css);
            in_style(origins, text, index, class, place.quotes, style, reference)
        }
        Body::Js(js) => origins.then_script(js_step::start(js)),
        Body::Plain | Body::NoHole => origins,
    }
}

// White space and quotes before a value are not fed.
fn in_quotes(
    origins: Origins,
    text: &[u8],
    index: usize,
    class: Class,
    quotes: Quotes,
    parts: Parts,
    reference: Option<OpenReference>,
) -> Origins
    requires inside { index < length text.now }
    requires pending { reference_from reference ≤ index }
    ensures { (y : Member) → origin_at result y ≡ origin_at origins (fed_origin
        (fed_in quotes (open_reference_at text.now index reference) (class_at class)
        (get_or text.now index 0)) parts y) }
{
    match quotes {
        Quotes::Bare(_) => match class {
            Class::White | Class::QuotationMark | Class::Apostrophe => origins,
            _ => behind_undone(origins, text, index, class, parts, reference),
        },
        Quotes::Dq | Quotes::Sq => { behind_undone(origins, text, index, class, parts, reference) }
    }
}

fn behind_undone(
    origins: Origins,
    text: &[u8],
    index: usize,
    class: Class,
    parts: Parts,
    reference: Option<OpenReference>,
) -> Origins
    requires inside { index < length text.now }
    requires pending { reference_from reference ≤ index }
    ensures { (y : Member) → origin_at result y ≡ origin_at origins (fed_origin
        (undone_byte true (open_reference_at text.now index reference) (class_at class)
        (get_or text.now index 0)) parts y) }
{
    match reference {
        None => behind_plain(origins, class, text[index], parts),
        Some(open) => {
            let read = pending(text, open.from + 1, index);
            in_reference(origins, class, text[index], parts, open.form, read)
        }
    }
}

// At a byte at which a reference is open, of which this has been read.
fn in_reference(
    origins: Origins,
    class: Class,
    byte: u8,
    parts: Parts,
    form: ReferenceForm,
    read: &[u8],
) -> Origins
    ensures { (y : Member) → origin_at result y ≡ origin_at origins (fed_origin
        (undone_byte true (Open (open_form_at form) read.now) (class_at class) byte) parts y) }
{
    match turn(class, form) {
        Outcome::Grows(_) => origins,
        Outcome::Closes => behind_char(origins, parts, meaning(form, read)),
        Outcome::Breaks => {
            let equals = is_equals(class);
            let broken = behind_broken(origins, parts, equals, form, read);
            behind_plain(broken, class, byte, broken_parts(parts, equals, form, read))
        }
    }
}

// A byte at which no reference is open; an ampersand opens one.
fn behind_plain(origins: Origins, class: Class, byte: u8, parts: Parts) -> Origins
    ensures { (y : Member) → origin_at result y
        ≡ origin_at origins (fed_origin (plain_bytes (class_at class) byte) parts y) }
{
    match class {
        Class::Ampersand => origins,
        _ => origins.then_part(parts, byte),
    }
}

// A reference that no semicolon ends.
fn behind_broken(
    origins: Origins,
    parts: Parts,
    equals: bool,
    form: ReferenceForm,
    read: &[u8],
) -> Origins
    ensures { (y : Member) → origin_at result y ≡ origin_at origins
        (fed_origin (flushed true equals (open_form_at form) read.now) parts y) }
{
    match broken_char(equals, form, read) {
        Some(found) => behind_char(origins, parts, found),
        None => behind_written(origins, parts, read),
    }
}

/// Before the end of a text, where a reference with which it ends is text as it stands.
pub fn behind_end(
    origins: Origins,
    text: &[u8],
    body: Body,
    reference: Option<OpenReference>,
) -> Origins
    requires pending { reference_from reference ≤ length text.now }
    ensures { (y : Member) → origin_at result y ≡ origin_at origins (body_origin body
        (as_it_stands (open_reference_at text.now (length text.now) reference)) y) }
{
    match body {
        Body::Url(parts) => match reference {
            None => origins,
            Some(open) => behind_written(origins, parts, pending(text, open.from + 1, text.len())),
        },
        Body::Css(css) => at_style_end(origins, text, css_step::start(css), reference),
        Body::Js(js) => origins.then_script(js_step::start(js)),
        Body::Plain | Body::NoHole => origins,
    }
}

// A reference that is text as it stands.
fn behind_written(origins: Origins, parts: Parts, read: &[u8]) -> Origins
    ensures { (y : Member) → origin_at result y
        ≡ origin_at origins (fed_origin (38 ∷ read.now) parts y) }
{
    behind_bytes(
        origins.then_part(parts, b'&'),
        url_step::next(parts, b'&'),
        read,
    )
}

fn behind_char(origins: Origins, parts: Parts, found: char) -> Origins
    ensures { (y : Member) → origin_at result y
        ≡ origin_at origins (fed_origin (encode_utf8 found) parts y) }
{
    let mut buffer = [0; 4];
    behind_bytes(origins, parts, found.encode_utf8(&mut buffer).as_bytes())
}

fn behind_bytes(origins: Origins, parts: Parts, bytes: &[u8]) -> Origins
    ensures { (y : Member) → origin_at result y
        ≡ origin_at origins (fed_origin bytes.now parts y) }
{
    let mut behind = origins;
    let mut fed = parts;
    for byte in bytes {
        behind = behind.then_part(fed, *byte);
        fed = url_step::next(fed, *byte);
    }
    behind
}
