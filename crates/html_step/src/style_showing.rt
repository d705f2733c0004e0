// What shows that a byte is refused in a style.
ghost use Rattle.std.specs.Prelude.{◌≡◌, ◌∷◌, ◌<◌, ◌≤◌, encode_utf8, get_or, length, option_map, true};
ghost use Rattle.css_lexer.specs.Classes.{style_class};
ghost use Rattle.css_step.specs.StyleOrigins.{style_scan_parts};
ghost use Rattle.css_step.specs.StyleScanViews.{style_scan_at};
ghost use Rattle.place_core.specs.page.References.{Open, as_it_stands, flushed, plain_bytes, undone_byte};
ghost use Rattle.html_scan.specs.ClassViews.{class_at};
ghost use Rattle.html_scan.specs.ScanViews.{open_form_at, open_reference_at, reference_from};
ghost use Rattle.html_step.specs.OriginViews.{evidence_at};
ghost use Rattle.html_step.specs.Origins.{met_before, style_fed_shown, style_shows};
ghost use Rattle.html_step.specs.Origins as spec;

use crate::evidence::Evidence;
use crate::showing::colon_shows;
use crate::style_origins::style_is_apart;
use css_lexer::StyleClass;
use css_step::StyleScan;
use html_scan::{
    Class, OpenReference, Outcome, ReferenceForm, broken_char, broken_style, is_equals, meaning,
    pending, turn,
};
use place_core::{Code, Member, Parts};

/// What shows that a byte is refused by this code, with the bytes that the style is fed at it.
pub fn shown_in_style(
    text: &[u8],
    index: usize,
    class: Class,
    style: StyleScan,
    reference: Option<OpenReference>,
    code: Code,
) -> Evidence
    requires inside { index < length text.now }
    requires pending { reference_from reference ≤ index }
    ensures { evidence_at result ≡ style_shows (style_scan_at style)
        (undone_byte true (open_reference_at text.now index reference) (class_at class)
        (get_or text.now index 0)) code }
{
    match code {
        Code::BadHTML => Evidence::One(Member::Whole),
        _ => before(style, of_undone(text, index, class, style, reference)),
    }
}

/// What shows that the end of a text is refused, where a reference with which it ends is text as it stands.
pub fn shown_at_end(text: &[u8], style: StyleScan, reference: Option<OpenReference>) -> Member
    requires pending { reference_from reference ≤ length text.now }
    ensures { result ≡ spec.shown_member (style_fed_shown
        (as_it_stands (open_reference_at text.now (length text.now) reference))
        (style_scan_at style)) }
{
    match reference {
        None => Member::Whole,
        Some(open) => shown_member(of_written(style, pending(text, open.from + 1, text.len()))),
    }
}

/// One member shows the end of a text.
pub fn shown_member(shown: Option<Evidence>) -> Member
    ensures { result ≡ spec.shown_member (option_map evidence_at shown) }
{
    match shown {
        Some(Evidence::One(member)) => member,
        _ => Member::Whole,
    }
}

/// What shows the same before all of these bytes.
pub fn before(style: StyleScan, shown: Option<Evidence>) -> Evidence
    ensures { evidence_at result ≡ met_before (style_scan_parts (style_scan_at style))
        (option_map evidence_at shown) }
{
    match shown {
        None => Evidence::One(Member::Whole),
        Some(Evidence::Apart) => {
            if style_is_apart(style) {
                Evidence::Apart
            } else {
                Evidence::Two(Member::PartStart, Member::PartOpen)
            }
        }
        Some(found) => found,
    }
}

fn of_undone(
    text: &[u8],
    index: usize,
    class: Class,
    style: StyleScan,
    reference: Option<OpenReference>,
) -> Option<Evidence>
    requires inside { index < length text.now }
    requires pending { reference_from reference ≤ index }
    ensures { option_map evidence_at result ≡ style_fed_shown
        (undone_byte true (open_reference_at text.now index reference) (class_at class)
        (get_or text.now index 0)) (style_scan_at style) }
{
    match reference {
        None => of_plain_byte(style, class, text[index]),
        Some(open) => {
            let read = pending(text, open.from + 1, index);
            in_reference(style, open.form, read, class, text[index])
        }
    }
}

// At a byte at which a reference is open, of which this has been read.
fn in_reference(
    style: StyleScan,
    form: ReferenceForm,
    read: &[u8],
    class: Class,
    byte: u8,
) -> Option<Evidence>
    ensures { option_map evidence_at result ≡ style_fed_shown
        (undone_byte true (Open (open_form_at form) read.now) (class_at class) byte)
        (style_scan_at style) }
{
    match turn(class, form) {
        Outcome::Grows(_) => None,
        Outcome::Closes => of_char(style, meaning(form, read)),
        Outcome::Breaks => {
            let equals = is_equals(class);
            let fed = broken_style(style, equals, form, read);
            let shown = of_broken(style, equals, form, read);
            let later = of_plain_byte(fed, class, byte);
            first_shown(shown, later)
        }
    }
}

/// Of two refusals the first.
pub fn first_shown(shown: Option<Evidence>, later: Option<Evidence>) -> Option<Evidence>
    ensures { option_map evidence_at result
        ≡ spec.first_shown (option_map evidence_at shown) (option_map evidence_at later) }
{
    match shown {
        Some(found) => Some(found),
        None => later,
    }
}

// A reference that no semicolon ends.
fn of_broken(style: StyleScan, equals: bool, form: ReferenceForm, read: &[u8]) -> Option<Evidence>
    ensures { option_map evidence_at result ≡ style_fed_shown
        (flushed true equals (open_form_at form) read.now) (style_scan_at style) }
{
    match broken_char(equals, form, read) {
        Some(found) => of_char(style, found),
        None => of_written(style, read),
    }
}

// A reference that is text as it stands.
fn of_written(style: StyleScan, read: &[u8]) -> Option<Evidence>
    ensures { option_map evidence_at result
        ≡ style_fed_shown (38 ∷ read.now) (style_scan_at style) }
{
    match of_byte(style, b'&') {
        Some(shown) => Some(shown),
        None => of_bytes(css_step::next(style, b'&'), read),
    }
}

fn of_char(style: StyleScan, found: char) -> Option<Evidence>
    ensures { option_map evidence_at result
        ≡ style_fed_shown (encode_utf8 found) (style_scan_at style) }
{
    let mut buffer = [0; 4];
    of_bytes(style, found.encode_utf8(&mut buffer).as_bytes())
}

/// Bytes that it is fed.
pub fn of_bytes(style: StyleScan, bytes: &[u8]) -> Option<Evidence>
    ensures { option_map evidence_at result ≡ style_fed_shown bytes.now (style_scan_at style) }
{
    let mut fed = style;
    for byte in bytes {
        match of_byte(fed, *byte) {
            Some(shown) => return Some(shown),
            None => fed = css_step::next(fed, *byte),
        }
    }
    None
}

// A byte at which no reference is open; an ampersand opens one.
fn of_plain_byte(style: StyleScan, class: Class, byte: u8) -> Option<Evidence>
    ensures { option_map evidence_at result
        ≡ style_fed_shown (plain_bytes (class_at class) byte) (style_scan_at style) }
{
    match class {
        Class::Ampersand => None,
        _ => of_byte(style, byte),
    }
}

/// A byte that the style is fed.
pub fn of_byte(style: StyleScan, byte: u8) -> Option<Evidence>
    ensures { option_map evidence_at result ≡ spec.style_byte_shown (style_scan_at style) byte }
{
    match css_step::refused(style, byte) {
        None => None,
        Some(code) => Some(byte_shows(style, css_lexer::class_of(byte), code)),
    }
}

fn byte_shows(style: StyleScan, class: StyleClass, code: Code) -> Evidence
    ensures { evidence_at result ≡ spec.style_byte_shows (style_scan_at style) class code }
{
    match style {
        StyleScan::Code(_) => Evidence::One(tails_show(class)),
        StyleScan::SplitEscape(_) => Evidence::One(Member::CssWord),
        StyleScan::StarBefore => Evidence::One(Member::CssStar),
        StyleScan::BareUrl(parts, _) | StyleScan::QuotedUrl(_, _, parts, _) => {
            url_shows(parts, code)
        }
        _ => Evidence::One(Member::Whole),
    }
}

// What would go on with what some path ended in.
fn tails_show(class: StyleClass) -> Member
    ensures { result ≡ spec.style_tails_show class }
{
    match class {
        StyleClass::Asterisk => Member::CssSlash,
        StyleClass::Solidus => Member::CssLt,
        _ => Member::CssWord,
    }
}

fn url_shows(parts: Parts, code: Code) -> Evidence
    ensures { evidence_at result ≡ spec.style_url_shows parts code }
{
    match code {
        Code::AmbigContext => colon_shows(parts),
        _ => Evidence::One(Member::Whole),
    }
}
