ghost use Rattle.std.specs.Prelude.{◌≡◌, ◌+◌, ◌<◌, ◌≤◌, get_or, length};
ghost use Rattle.html_scan.specs.ClassViews.{class_at};
ghost use Rattle.html_scan.specs.ScanViews.{scan_at, pending_from};
ghost use Rattle.html_scan.specs.Scans.{scan_next, place_next};
ghost use Rattle.html_scan.specs.declared.scan.Scan.TheVariants as scan;

use crate::class::Class;
use crate::comments::{in_comment, in_comment_end};
use crate::contents::{after_block_bang, after_content_less, in_content, in_content_name};
use crate::declaration::declared_by;
use crate::names::{is_name_of, may_be_name_of};
use crate::scan::Scan;
use crate::slices::pending;
use crate::tags::{in_attribute_name, in_tag, in_tag_name};
use crate::texts::{after_less, after_solidus, in_declaration, in_doctype, in_text};
use crate::triple::Triple;
use crate::types::{before_type, in_type};
use crate::values::{in_lexeme, in_script, in_style, in_value};
use crate::{script_elements, style_elements};
use css_step::StyleScan;
use place_core::{Element, Place};

/// The scan state after the byte at a place of a text, whether it is refused or not.
#[inline(always)]
pub fn next(text: &[u8], index: usize, class: Class, scan: Scan) -> Scan
    requires inside { index < length text.now }
    requires pending { pending_from scan ≤ index }
    ensures scan { scan_at text.now (index + 1) result
        ≡ scan_next (scan_at text.now index scan) (class_at class) (get_or text.now index 0) }
    ensures pending { pending_from result ≤ index + 1 }
{
    match scan {
        Scan::At(place) => after_place(text, index, class, place),
        Scan::AfterLess => after_less(class, index),
        Scan::AfterLessSolidus => after_solidus(class, index),
        Scan::InDeclaration { from } => after_bang(text, index, class, from),
        Scan::InTagName { ends, from } => in_tag_name(
            class,
            ends,
            pending(text, from, index),
            from,
        ),
        Scan::InAttributeName { tag, typed, from } => {
            in_attribute_name(class, tag, typed, pending(text, from, index), from)
        }
        Scan::InCommentEnd(stage) => in_comment_end(class, stage),
        Scan::InUrl {
            place,
            triple,
            reference,
        } => in_lexeme(text, index, class, place, triple, reference),
        Scan::InStyle {
            place,
            style,
            reference,
        } => in_style(text, index, class, place, style, reference),
        Scan::InScript {
            place,
            script,
            reference,
        } => in_script(text, index, class, place, script, reference),
        Scan::AfterContentLess(element) => after_content_less(class, element, index),
        Scan::InContentName { element, from } => after_letters(text, index, class, element, from),
        Scan::InStyleElement(style) => style_elements::in_element(class, text[index], style),
        Scan::AfterStyleLess(style) => {
            style_elements::after_less(class, text[index], style, index)
        }
        Scan::InStyleName { style, from } => after_style_letters(text, index, class, style, from),
        Scan::InScriptElement { script, pending } => {
            script_elements::in_element(text, index, class, script, pending)
        }
        Scan::AfterBlockBang => after_block_bang(class),
        Scan::AfterBlockBangDash => in_content(class, Element::DataBlock),
        Scan::BeforeType(tag) => before_type(class, tag, index),
        Scan::InType { tag, quoting, from } => in_type(
            class,
            tag,
            quoting,
            pending(text, from, index),
            from,
        ),
    }
}

#[inline(always)]
fn after_bang(text: &[u8], index: usize, class: Class, from: usize) -> Scan
    requires inside { index < length text.now }
    requires pending { from ≤ index }
    ensures scan { scan_at text.now (index + 1) result
        ≡ scan_next (scan_at text.now index (scan.InDeclaration from)) (class_at class)
        (get_or text.now index 0) }
    ensures pending { pending_from result ≤ index + 1 }
{
    let opens = declared_by(pending(text, from, index + 1));
    in_declaration(class, opens, from)
}

#[inline(always)]
fn after_letters(text: &[u8], index: usize, class: Class, element: Element, from: usize) -> Scan
    requires inside { index < length text.now }
    requires pending { from + 2 ≤ index }
    ensures scan { scan_at text.now (index + 1) result
        ≡ scan_next (scan_at text.now index (scan.InContentName element from)) (class_at class)
        (get_or text.now index 0) }
    ensures pending { pending_from result ≤ index + 1 }
{
    let grows = may_be_name_of(element, pending(text, from + 2, index + 1));
    let whole = is_name_of(element, pending(text, from + 2, index));
    in_content_name(class, grows, whole, element, from)
}

fn after_style_letters(
    text: &[u8],
    index: usize,
    class: Class,
    style: StyleScan,
    from: usize,
) -> Scan
    requires inside { index < length text.now }
    requires pending { from + 2 ≤ index }
    ensures scan { scan_at text.now (index + 1) result
        ≡ scan_next (scan_at text.now index (scan.InStyleName style from)) (class_at class)
        (get_or text.now index 0) }
    ensures pending { pending_from result ≤ index + 1 }
{
    let letters = pending(text, from + 2, index);
    let grows = may_be_name_of(Element::Style, pending(text, from + 2, index + 1));
    let whole = is_name_of(Element::Style, letters);
    style_elements::in_name(class, text[index], grows, whole, style, from, letters)
}

#[inline(always)]
fn after_place(text: &[u8], index: usize, class: Class, place: Place) -> Scan
    requires inside { index < length text.now }
    ensures scan { scan_at text.now (index + 1) result
        ≡ place_next place (class_at class) (get_or text.now index 0) }
    ensures pending { pending_from result ≤ index + 1 }
{
    match place {
        Place::Text => in_text(class),
        Place::Doctype => Scan::At(in_doctype(class)),
        Place::Comment(_) => in_comment(class),
        Place::Rcdata(element) => in_content(class, element),
        Place::Tag(tag) => in_tag(tag, class, index),
        Place::Value(value) => in_value(text, index, class, value, Triple::None, None),
        Place::Block(_) => in_content(class, Element::DataBlock),
        Place::Style(css) => style_elements::at_place(class, text[index], css),
        Place::Script(js) => script_elements::at_place(text, index, class, js),
    }
}
