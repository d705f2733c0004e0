ghost use Rattle.std.specs.Prelude.{◌≡◌, ◌+◌, ◌≤◌, ℕ, List, true, drop, is_some, length, option_map};
ghost use Rattle.place_core.specs.page.References as references;
ghost use Rattle.place_core.specs.page.States.{PendingLess, PendingName};
ghost use Rattle.place_core.specs.place.Errors.{pending_before};
ghost use Rattle.place_core.specs.declared.element.Element.TheVariants as element;
ghost use Rattle.css_step.specs.StyleScanViews.{style_scan_at};
ghost use Rattle.js_step.specs.ScriptScanViews.{most_bytes, script_scan_at};
ghost use Rattle.js_step.specs.ScriptScans.{script_scan_shown};
ghost use Rattle.place_core.specs.declared.body.Body.TheVariants as body;
ghost use Rattle.place_core.specs.declared.js.Js.{Js};
ghost use Rattle.html_scan.specs.ClassViews.{class_at};
ghost use Rattle.html_scan.specs.ScanViews.{open_form_at, open_reference_at, reference_from, scan_at, pending_from, script_count, script_from};
ghost use Rattle.html_scan.specs.Scans.{InStyleElement, parts_before, parts_with, pending_left, scan_place, scan_shown};
ghost use Rattle.html_scan.specs.Scans.{script_scan_before, style_scan_before, with_body};
ghost use Rattle.html_scan.specs.Scans as spec;
ghost use Rattle.html_scan.specs.Slices as slices;

use crate::class::{Class, class_of};
use crate::contents::rest_place;
use crate::names::{is_name_of, kind_on, may_be_name_of, tag_named};
use crate::references::{OpenReference, Outcome, ReferenceForm, is_equals, turn};
use crate::scan::Scan;
use crate::script_elements::{behind_pending, element_shown, script_left, script_place};
use crate::scripts::{broken as broken_script, script_at_cut, with_script};
use crate::slices::pending;
use crate::style_elements::{behind_less, behind_name, end_tag_goes_on, style_place};
use crate::styles::{broken, style_at_cut, with_style};
use crate::tags::{whole_attribute_name, whole_tag_name};
use crate::urls::{broken_parts, parts_at_cut};
use css_step::StyleScan;
use js_step::ScriptScan;
use place_core::{Body, Element, Place, ValuePlace};

/// The place where a text ends.
pub fn end_place(text: &[u8], scan: Scan) -> Place
    requires pending { pending_from scan ≤ length text.now }
    ensures { result ≡ scan_place (scan_at text.now (length text.now) scan) }
{
    match scan {
        Scan::At(place) => place,
        Scan::AfterLess | Scan::AfterLessSolidus | Scan::InDeclaration { .. } => Place::Text,
        Scan::InTagName { ends, from } => whole_tag_name(tag_named(
            ends,
            pending(text, from, text.len()),
        )),
        Scan::InAttributeName { tag, typed, from } => {
            let kind = kind_on(tag, pending(text, from, text.len()));
            whole_attribute_name(tag, typed, kind)
        }
        Scan::InCommentEnd(_) => Place::Comment(true),
        Scan::InUrl {
            place,
            reference,
            ..
        } => cut_place(text, place, reference),
        Scan::InStyle {
            place,
            style,
            reference,
        } => with_style(place, style_at_cut(text, style, reference)),
        Scan::InScript {
            place,
            script,
            reference,
        } => with_script(place, script_at_cut(text, script, reference)),
        Scan::AfterContentLess(Element::DataBlock) => Place::Block(true),
        Scan::AfterContentLess(element) => rest_place(element),
        Scan::InContentName { element, .. } => rest_place(element),
        Scan::AfterBlockBang | Scan::AfterBlockBangDash => Place::Block(false),
        Scan::InStyleElement(style) => style_place(style),
        Scan::AfterStyleLess(style) => style_place(behind_less(style)),
        Scan::InStyleName { style, from } => {
            style_place(behind_name(style, pending(text, from + 2, text.len())))
        }
        Scan::InScriptElement { script, pending } => {
            script_place(behind_pending(text, text.len(), script, pending))
        }
        Scan::BeforeType(_) | Scan::InType { .. } => Place::Text,
    }
}

// Where a text ends in a value, in which this reference may be open.
fn cut_place(text: &[u8], place: ValuePlace, reference: Option<OpenReference>) -> Place
    requires pending { reference_from reference ≤ length text.now }
    ensures { result ≡ with_body place (parts_with place.body
        (references.as_it_stands (open_reference_at text.now (length text.now) reference))) }
{
    Place::Value(ValuePlace {
        body: cut_body(text, place.body, reference),
        ..place
    })
}

fn cut_body(text: &[u8], body: Body, reference: Option<OpenReference>) -> Body
    requires pending { reference_from reference ≤ length text.now }
    ensures { result ≡ parts_with body
        (references.as_it_stands (open_reference_at text.now (length text.now) reference)) }
{
    match body {
        Body::Url(parts) => Body::Url(parts_at_cut(text, parts, reference)),
        Body::Plain | Body::NoHole | Body::Js(_) | Body::Css(_) => body,
    }
}

/// The place that is shown where a text has been read to; none in the value of a script's `type`.
pub fn shown_place(text: &[u8], index: usize, scan: Scan) -> Option<Place>
    requires inside { index ≤ length text.now }
    requires pending { pending_from scan ≤ index }
    ensures { result ≡ scan_shown (scan_at text.now index scan) (drop index text.now) }
{
    match scan {
        Scan::BeforeType(_) | Scan::InType { .. } => None,
        Scan::InUrl {
            place,
            reference,
            ..
        } => Some(url_before(text, index, place, reference)),
        Scan::InStyle {
            place,
            style,
            reference,
        } => Some(with_style(place, style_before(text, index, style, reference))),
        Scan::InScript {
            place,
            script,
            reference,
        } => script_shown(place, script_before(text, index, script, reference)),
        Scan::AfterStyleLess(style) => Some(less_before(text, index, style)),
        Scan::InStyleName { style, from } => Some(name_before(text, index, style, from)),
        Scan::InScriptElement { script, pending } => {
            element_shown(script_left(text, index, script, pending))
        }
        _ => {
            let (read, _) = text.split_at(index);
            Some(end_place(read, scan))
        }
    }
}

// In the element `style` behind a `<`, before the bytes that are left: behind it where they do not go on with an end tag, and else
// before it.
fn less_before(text: &[u8], index: usize, style: StyleScan) -> Place
    requires inside { index ≤ length text.now }
    ensures { result ≡ scan_place (InStyleElement (style_scan_at style)
        (pending_left element.Style PendingLess (drop index text.now))) }
{
    let (_, left) = text.split_at(index);
    match left.split_first() {
        None => style_place(behind_less(style)),
        Some((byte, _)) => before_byte(style, class_of(*byte)),
    }
}

fn before_byte(style: StyleScan, class: Class) -> Place
    ensures { (b : ℕ) → result ≡ scan_place (InStyleElement (style_scan_at style)
        (pending_before element.Style PendingLess (class_at class) b)) }
{
    match class {
        Class::Solidus => style_place(style),
        _ => style_place(behind_less(style)),
    }
}

// The same behind `</` and letters.
fn name_before(text: &[u8], index: usize, style: StyleScan, from: usize) -> Place
    requires inside { index ≤ length text.now }
    requires pending { from + 2 ≤ index }
    ensures { result ≡ scan_place (InStyleElement (style_scan_at style)
        (pending_left element.Style (PendingName (slices.pending text.now (from + 2) index))
        (drop index text.now))) }
{
    let letters = pending(text, from + 2, index);
    if index < text.len() {
        let grows = may_be_name_of(Element::Style, pending(text, from + 2, index + 1));
        let whole = is_name_of(Element::Style, letters);
        if end_tag_goes_on(class_of(text[index]), grows, whole) {
            return style_place(style);
        }
    }
    style_place(behind_name(style, letters))
}

// In a URL, before the bytes that are left: behind a reference that the next of them breaks, and else before it.
fn url_before(
    text: &[u8],
    index: usize,
    place: ValuePlace,
    reference: Option<OpenReference>,
) -> Place
    requires inside { index ≤ length text.now }
    requires pending { reference_from reference ≤ index }
    ensures { result ≡ spec.url_before place (open_reference_at text.now index reference)
        (drop index text.now) }
{
    let (read, left) = text.split_at(index);
    match reference {
        None => cut_place(read, place, None),
        Some(open) => match left.split_first() {
            None => cut_place(read, place, reference),
            Some((byte, _)) => {
                let behind = pending(text, open.from + 1, index);
                Place::Value(ValuePlace {
                    body: body_before(place.body, open.form, behind, class_of(*byte)),
                    ..place
                })
            }
        },
    }
}

fn body_before(body: Body, form: ReferenceForm, read: &[u8], class: Class) -> Body
    ensures { result ≡ parts_before (references.turn (class_at class) (open_form_at form)) body
        (class_at class) (open_form_at form) read.now }
{
    match turn(class, form) {
        Outcome::Grows(_) | Outcome::Closes => body,
        Outcome::Breaks => broken_body(body, is_equals(class), form, read),
    }
}

fn broken_body(body: Body, equals: bool, form: ReferenceForm, read: &[u8]) -> Body
    ensures { result
        ≡ parts_with body (references.flushed true equals (open_form_at form) read.now) }
{
    match body {
        Body::Url(parts) => Body::Url(broken_parts(parts, equals, form, read)),
        Body::Plain | Body::NoHole | Body::Js(_) | Body::Css(_) => body,
    }
}

// In a style, before the bytes that are left: behind a reference that the next of them breaks, and else before it.
fn style_before(
    text: &[u8],
    index: usize,
    style: StyleScan,
    reference: Option<OpenReference>,
) -> StyleScan
    requires inside { index ≤ length text.now }
    requires pending { reference_from reference ≤ index }
    ensures { style_scan_at result ≡ style_scan_before (style_scan_at style)
        (open_reference_at text.now index reference) (drop index text.now) }
{
    let (read, left) = text.split_at(index);
    match reference {
        None => style,
        Some(open) => match left.split_first() {
            None => style_at_cut(read, style, reference),
            Some((byte, _)) => {
                let behind = pending(text, open.from + 1, index);
                style_turned(style, open.form, behind, class_of(*byte))
            }
        },
    }
}

fn style_turned(style: StyleScan, form: ReferenceForm, read: &[u8], class: Class) -> StyleScan
    ensures { style_scan_at result ≡ spec.style_before
        (references.turn (class_at class) (open_form_at form)) (style_scan_at style)
        (class_at class) (open_form_at form) read.now }
{
    match turn(class, form) {
        Outcome::Grows(_) | Outcome::Closes => style,
        Outcome::Breaks => broken(style, is_equals(class), form, read),
    }
}

// The place that is shown in a script; none within a template literal, nor behind a slash after `}`.
fn script_shown(place: ValuePlace, script: ScriptScan) -> Option<Place>
    ensures { result ≡ option_map (λ (j : Js). with_body place (body.Js j))
        (script_scan_shown (script_scan_at script)) }
{
    match js_step::shown(script) {
        Some(js) => Some(Place::Value(ValuePlace {
            body: Body::Js(js),
            ..place
        })),
        None => None,
    }
}

// In a script, before the bytes that are left, as in a style.
fn script_before(
    text: &[u8],
    index: usize,
    script: ScriptScan,
    reference: Option<OpenReference>,
) -> ScriptScan
    requires inside { index ≤ length text.now }
    requires pending { script_from (script_count script) reference ≤ index }
    ensures { script_scan_at result ≡ script_scan_before (script_scan_at script)
        (open_reference_at text.now index reference) (drop index text.now) }
{
    let (read, left) = text.split_at(index);
    match reference {
        None => script,
        Some(open) => match left.split_first() {
            None => script_at_cut(read, script, reference),
            Some((byte, _)) => {
                let behind = pending(text, open.from + 1, index);
                script_turned(script, open.form, behind, class_of(*byte))
            }
        },
    }
}

fn script_turned(script: ScriptScan, form: ReferenceForm, read: &[u8], class: Class) -> ScriptScan
    requires room { script_count script + length read.now + 4 ≤ most_bytes }
    ensures { script_scan_at result ≡ spec.script_before_turn
        (references.turn (class_at class) (open_form_at form)) (script_scan_at script)
        (class_at class) (open_form_at form) read.now }
{
    match turn(class, form) {
        Outcome::Grows(_) | Outcome::Closes => script,
        Outcome::Breaks => broken_script(script, is_equals(class), form, read),
    }
}

/// Whether a place is shown where a text has been read to, before the bytes that are left.
pub fn is_shown(text: &[u8], index: usize, scan: Scan) -> bool
    requires inside { index ≤ length text.now }
    requires pending { pending_from scan ≤ index }
    ensures { result ≡ is_some (scan_shown (scan_at text.now index scan) (drop index text.now)) }
{
    match scan {
        Scan::BeforeType(_) | Scan::InType { .. } => false,
        Scan::InScript {
            place,
            script,
            reference,
        } => script_shown(place, script_before(text, index, script, reference)).is_some(),
        Scan::InScriptElement { script, pending } => {
            element_shown(script_left(text, index, script, pending)).is_some()
        }
        _ => true,
    }
}
