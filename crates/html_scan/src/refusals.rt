ghost use Rattle.std.specs.Prelude.{◌≡◌, ◌+◌, ◌<◌, ◌≤◌, IfSome, Some, get_or, length};
ghost use Rattle.html_scan.specs.ClassViews.{class_at};
ghost use Rattle.html_scan.specs.ScanViews.{cause_at, quoting_at, scan_at, pending_from};
ghost use Rattle.place_core.specs.declared.code.Code.TheVariants as code;
ghost use Rattle.place_core.specs.place.StatePlaces.{quotes_at};
ghost use Rattle.html_scan.specs.Scans.{scan_cut_error, scan_error, scan_lexeme_error};
ghost use Rattle.html_scan.specs.declared.scan.Scan.TheVariants as scan;

use crate::cause::Cause;
use crate::class::Class;
use crate::errors::{
    after_block_bang_dash, at_hand, at_place, in_attribute_name, in_lexeme, in_quotes, in_script,
    in_style, in_tag_name, name_ends,
};
use crate::names::{is_name_of, kind_on, may_be_name_of};
use crate::quoting::Quoting;
use crate::scan::Scan;
use crate::script_element_refusals::{refused_at_cut, refused_in_element};
use crate::script_refusals::of_open_in_script;
use crate::slices::pending;
use crate::style_elements;
use crate::style_refusals::{of_open_in_style, of_unfinished_style};
use crate::tags::UNBEGUN;
use crate::url_refusals::{of_open, of_unfinished};
use crate::values::BEGUN;
use css_step::StyleScan;
use place_core::{Code, Element, Quotes};

/// Why a byte is refused after that many bytes of a text.
#[inline(always)]
pub fn at_byte(text: &[u8], index: usize, class: Class, scan: Scan) -> Option<Cause>
    requires inside { index < length text.now }
    requires pending { pending_from scan ≤ index }
    ensures error { cause_at result
        ≡ scan_error (scan_at text.now index scan) (class_at class) (get_or text.now index 0) }
    ensures bound { IfSome result (λ cause. (cause.back ≤ index) × (cause.shown ≤ index)) }
{
    match scan {
        Scan::At(place) => at_place(text, index, class, place),
        Scan::InTagName { .. } => at_hand(in_tag_name(class)),
        Scan::InAttributeName { tag, typed, from } => {
            in_attribute_name(tag, typed, pending(text, from, index), class)
        }
        Scan::InUrl {
            place,
            reference,
            ..
        } => in_lexeme(text, index, class, place, reference),
        Scan::InStyle {
            place,
            style,
            reference,
        } => in_style(text, index, class, place, style, reference),
        Scan::InScript {
            place,
            script,
            reference,
        } => in_script(text, index, class, place, script, reference),
        Scan::InStyleElement(style) => at_hand(style_elements::refused(style, class, text[index])),
        Scan::AfterStyleLess(style) => {
            style_elements::refused_after_less(style, class, text[index])
        }
        Scan::InStyleName { style, from } => in_style_name(text, index, class, style, from),
        Scan::InScriptElement { script, pending } => {
            refused_in_element(text, index, class, script, pending)
        }
        Scan::AfterBlockBangDash => after_block_bang_dash(class),
        Scan::BeforeType(_) => at_hand(in_quotes(UNBEGUN, class)),
        Scan::InType { quoting, .. } => at_hand(in_quotes(quotes_of(quoting), class)),
        _ => None,
    }
}

/// Why the end of a text is refused.
pub fn at_end(text: &[u8], scan: Scan) -> Option<Cause>
    requires pending { pending_from scan ≤ length text.now }
    ensures error { cause_at result
        ≡ scan_cut_error (scan_at text.now (length text.now) scan) }
    ensures bound { IfSome result (λ cause.
        (cause.back ≤ length text.now) × (cause.shown ≤ length text.now)) }
{
    match scan {
        Scan::InAttributeName { tag, typed, from } => {
            let name = pending(text, from, text.len());
            name_ends(typed, kind_on(tag, name), name.len())
        }
        Scan::InUrl {
            place,
            reference,
            ..
        } => of_open(text, place.body, reference),
        Scan::InStyle {
            style,
            reference,
            ..
        } => of_open_in_style(text, style, reference),
        Scan::InScript {
            script,
            reference,
            ..
        } => of_open_in_script(text, script, reference),
        Scan::BeforeType(_) | Scan::InType { .. } => at_hand(Some(Code::BadHTML)),
        Scan::AfterStyleLess(style) => style_elements::refused_at_less(style),
        Scan::InStyleName { style, from } => {
            style_elements::refused_at_name(style, pending(text, from + 2, text.len()))
        }
        Scan::InScriptElement { script, pending } => refused_at_cut(text, script, pending),
        Scan::InContentName {
            element: Element::DataBlock,
            from,
        } => unfinished(text.len() - from),
        Scan::AfterBlockBang => unfinished(2),
        Scan::AfterBlockBangDash => unfinished(3),
        _ => None,
    }
}

/// Why the end of a text is refused in a lexeme of a URL or a style that has begun.
pub fn lexeme_at_end(text: &[u8], scan: Scan) -> Option<Code>
    requires pending { pending_from scan ≤ length text.now }
    ensures { result ≡ scan_lexeme_error (scan_at text.now (length text.now) scan) }
{
    match scan {
        Scan::InUrl {
            triple,
            reference,
            ..
        } => of_unfinished(text, triple, reference),
        Scan::InStyle {
            style,
            reference,
            ..
        } => of_unfinished_style(text, style, reference),
        Scan::InStyleElement(style) => style_elements::refused_lexeme(style),
        Scan::AfterStyleLess(style) => {
            style_elements::refused_lexeme(style_elements::behind_less(style))
        }
        Scan::InStyleName { style, from } => {
            let letters = pending(text, from + 2, text.len());
            style_elements::refused_lexeme(style_elements::behind_name(style, letters))
        }
        _ => None,
    }
}

// In the element `style`, after `</` and letters.
fn in_style_name(
    text: &[u8],
    index: usize,
    class: Class,
    style: StyleScan,
    from: usize,
) -> Option<Cause>
    requires inside { index < length text.now }
    requires pending { from + 2 ≤ index }
    ensures error { cause_at result
        ≡ scan_error (scan_at text.now index (scan.InStyleName style from)) (class_at class)
        (get_or text.now index 0) }
    ensures bound { IfSome result (λ cause. (cause.back ≤ index) × (cause.shown ≤ index)) }
{
    let letters = pending(text, from + 2, index);
    let grows = may_be_name_of(Element::Style, pending(text, from + 2, index + 1));
    let whole = is_name_of(Element::Style, letters);
    style_elements::refused_in_name(style, class, text[index], grows, whole, letters)
}

// A text that ends in a data block in what its end tag, or a `<!--`, begins with: this many bytes.
fn unfinished(len: usize) -> Option<Cause>
    ensures { result ≡ Some (record { code = code.SplitToken; back = 0; shown = len }) }
{
    Some(Cause {
        code: Code::SplitToken,
        back: 0,
        shown: len,
    })
}

fn quotes_of(quoting: Quoting) -> Quotes
    ensures { result ≡ quotes_at (quoting_at quoting) }
{
    match quoting {
        Quoting::Double => Quotes::Dq,
        Quoting::Single => Quotes::Sq,
        Quoting::Unquoted => BEGUN,
    }
}
