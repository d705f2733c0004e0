// What shows that a byte is refused in the element `style`, or one before it that was pending back.
ghost use Rattle.std.specs.Prelude.{◌≡◌, ◌+◌, ◌++◌, ◌<◌, ◌≤◌, codes, get_or, length, option_map};
ghost use Rattle.css_step.specs.StyleScanViews.{style_scan_at};
ghost use Rattle.place_core.specs.page.Contents.{pending_bytes};
ghost use Rattle.place_core.specs.page.States.{PendingLess, PendingName};
ghost use Rattle.html_scan.specs.ClassViews.{class_at};
ghost use Rattle.html_scan.specs.Slices as slices;
ghost use Rattle.html_step.specs.OriginViews.{evidence_at};
ghost use Rattle.html_step.specs.Origins.{element_fed, end_name_fed, fed_shows, less_fed, loose_fed, style_fed_shown};
ghost use Rattle.html_step.specs.Origins as spec;

use crate::evidence::Evidence;
use crate::style_showing::{before, first_shown, of_byte, of_bytes, shown_member};
use css_step::StyleScan;
use html_scan::{
    Class, behind_less, behind_name, end_tag_goes_on, is_name_of, may_be_name_of, pending,
};
use place_core::{Element, Member};

/// Where nothing is pending back.
pub fn in_element(class: Class, byte: u8, style: StyleScan) -> Evidence
    ensures { evidence_at result
        ≡ fed_shows (style_scan_at style) (loose_fed (class_at class) byte) }
{
    before(style, of_loose(class, byte, style))
}

/// After `<`.
pub fn after_less(class: Class, byte: u8, style: StyleScan) -> Evidence
    ensures { evidence_at result
        ≡ fed_shows (style_scan_at style) (less_fed (class_at class) byte) }
{
    match class {
        Class::Solidus => Evidence::One(Member::Whole),
        _ => {
            let later = of_loose(class, byte, behind_less(style));
            before(style, first_shown(of_byte(style, b'<'), later))
        }
    }
}

/// After `</` and letters; `from` is where the `<` stands.
pub fn in_name(text: &[u8], index: usize, class: Class, style: StyleScan, from: usize) -> Evidence
    requires inside { index < length text.now }
    requires pending { from + 2 ≤ index }
    ensures { evidence_at result ≡ fed_shows (style_scan_at style)
        (element_fed (PendingName (slices.pending text.now (from + 2) index)) (class_at class)
        (get_or text.now index 0)) }
{
    let letters = pending(text, from + 2, index);
    let grows = may_be_name_of(Element::Style, pending(text, from + 2, index + 1));
    let whole = is_name_of(Element::Style, letters);
    before(
        style,
        after_letters(class, text[index], grows, whole, style, letters),
    )
}

// Whether the byte goes on with the name of the element, and whether the letters are all of it.
fn after_letters(
    class: Class,
    byte: u8,
    grows: bool,
    whole: bool,
    style: StyleScan,
    letters: &[u8],
) -> Option<Evidence>
    ensures { option_map evidence_at result ≡ style_fed_shown
        (end_name_fed grows whole (class_at class) byte letters.now) (style_scan_at style) }
{
    if end_tag_goes_on(class, grows, whole) {
        return None;
    }
    let later = of_loose(class, byte, behind_name(style, letters));
    first_shown(of_name(style, letters), later)
}

/// What shows that the end of a text is refused after `<`.
pub fn at_less(style: StyleScan) -> Member
    ensures { result ≡ spec.shown_member
        (style_fed_shown (pending_bytes PendingLess) (style_scan_at style)) }
{
    shown_member(first_shown(of_byte(style, b'<'), None))
}

/// The same after `</` and letters.
pub fn at_name(style: StyleScan, letters: &[u8]) -> Member
    ensures { result ≡ spec.shown_member
        (style_fed_shown (pending_bytes (PendingName letters.now)) (style_scan_at style)) }
{
    shown_member(of_name(style, letters))
}

fn of_loose(class: Class, byte: u8, style: StyleScan) -> Option<Evidence>
    ensures { option_map evidence_at result
        ≡ style_fed_shown (loose_fed (class_at class) byte) (style_scan_at style) }
{
    match class {
        Class::LessThan => None,
        _ => of_byte(style, byte),
    }
}

// `</` and letters.
fn of_name(style: StyleScan, letters: &[u8]) -> Option<Evidence>
    ensures { option_map evidence_at result
        ≡ style_fed_shown (codes "</" ++ letters.now) (style_scan_at style) }
{
    let opened = behind_less(style);
    let name = of_bytes(css_step::next(opened, b'/'), letters);
    let later = first_shown(of_byte(opened, b'/'), name);
    first_shown(of_byte(style, b'<'), later)
}
