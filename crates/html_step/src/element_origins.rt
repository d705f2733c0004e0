// Origins before the bytes that the element `style` is fed at a byte of the text, those first that were pending back.
ghost use Rattle.std.specs.Prelude.{◌≡◌, ◌+◌, ◌++◌, ◌<◌, ◌≤◌, codes, get_or, length};
ghost use Rattle.css_step.specs.StyleScanViews.{style_scan_at};
ghost use Rattle.place_core.specs.page.States.{PendingName};
ghost use Rattle.html_scan.specs.ClassViews.{class_at};
ghost use Rattle.html_scan.specs.Slices as slices;
ghost use Rattle.html_step.specs.OriginViews.{origin_at};
ghost use Rattle.html_step.specs.Origins.{element_fed, end_name_fed, less_fed, loose_fed, style_fed_origin};

use crate::origins::Origins;
use crate::style_fed_origins::behind_bytes;
use css_step::StyleScan;
use html_scan::{Class, behind_less, end_tag_goes_on, is_name_of, may_be_name_of, pending};
use place_core::{Element, Member};

/// Where nothing is pending back.
pub fn in_element(origins: Origins, class: Class, byte: u8, style: StyleScan) -> Origins
    ensures { (y : Member) → origin_at result y ≡ origin_at origins
        (style_fed_origin (loose_fed (class_at class) byte) (style_scan_at style) y) }
{
    match class {
        Class::LessThan => origins,
        _ => origins.then_style(style, byte),
    }
}

/// After `<`.
pub fn after_less(origins: Origins, class: Class, byte: u8, style: StyleScan) -> Origins
    ensures { (y : Member) → origin_at result y ≡ origin_at origins
        (style_fed_origin (less_fed (class_at class) byte) (style_scan_at style) y) }
{
    match class {
        Class::Solidus => origins,
        _ => {
            let behind = origins.then_style(style, b'<');
            in_element(behind, class, byte, behind_less(style))
        }
    }
}

/// After `</` and letters; `from` is where the `<` stands.
pub fn in_name(
    origins: Origins,
    text: &[u8],
    index: usize,
    class: Class,
    style: StyleScan,
    from: usize,
) -> Origins
    requires inside { index < length text.now }
    requires pending { from + 2 ≤ index }
    ensures { (y : Member) → origin_at result y ≡ origin_at origins (style_fed_origin
        (element_fed (PendingName (slices.pending text.now (from + 2) index)) (class_at class)
        (get_or text.now index 0)) (style_scan_at style) y) }
{
    let letters = pending(text, from + 2, index);
    let grows = may_be_name_of(Element::Style, pending(text, from + 2, index + 1));
    let whole = is_name_of(Element::Style, letters);
    after_letters(origins, class, text[index], grows, whole, style, letters)
}

// Whether the byte goes on with the name of the element, and whether the letters are all of it.
fn after_letters(
    origins: Origins,
    class: Class,
    byte: u8,
    grows: bool,
    whole: bool,
    style: StyleScan,
    letters: &[u8],
) -> Origins
    ensures { (y : Member) → origin_at result y ≡ origin_at origins (style_fed_origin
        (end_name_fed grows whole (class_at class) byte letters.now) (style_scan_at style) y) }
{
    if end_tag_goes_on(class, grows, whole) {
        return origins;
    }
    let behind = behind_name(origins, style, letters);
    let fed = html_scan::behind_name(style, letters);
    in_element(behind, class, byte, fed)
}

/// Before `</` and letters.
pub fn behind_name(origins: Origins, style: StyleScan, letters: &[u8]) -> Origins
    ensures { (y : Member) → origin_at result y ≡ origin_at origins
        (style_fed_origin (codes "</" ++ letters.now) (style_scan_at style) y) }
{
    let opened = behind_less(style);
    let less = origins.then_style(style, b'<');
    let solidus = less.then_style(opened, b'/');
    behind_bytes(solidus, css_step::next(opened, b'/'), letters)
}
