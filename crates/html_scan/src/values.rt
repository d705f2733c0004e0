ghost use Rattle.std.specs.Prelude.{◌≡◌, ◌+◌, ◌<◌, ◌≤◌, get_or, length};
ghost use Rattle.css_step.specs.StyleScanViews.{style_scan_at};
ghost use Rattle.js_step.specs.ScriptScanViews.{script_scan_at};
ghost use Rattle.html_scan.specs.ClassViews.{class_at};
ghost use Rattle.html_scan.specs.ScanViews.{open_reference_at, pending_from, reference_from, scan_at, triple_at};
ghost use Rattle.html_scan.specs.ScanViews.{script_count, script_from, unless_led};
ghost use Rattle.html_scan.specs.Scans.{At, bare_leads, bare_next, style_fed, style_value_next};
ghost use Rattle.html_scan.specs.Scans.{script_fed_next, script_value_next, value_fed, value_next};
ghost use Rattle.html_scan.specs.Scans as spec;

use crate::class::Class;
use crate::references::OpenReference;
use crate::scan::Scan;
use crate::tags::{SCRIPT_START, UNBEGUN, before_name, content};
use crate::triple::Triple;
use crate::urls::{UrlPoint, in_url};
use crate::{scripts, styles};
use css_step::StyleScan;
use js_step::ScriptScan;
use place_core::{Bare, Body, Css, CssTails, Place, Quotes, ValuePlace};

/// In a value without quotes that has begun.
pub const BEGUN: Quotes = Quotes::Bare(Bare {
    uq: true,
    unbegun: false,
});

/// In the value of an attribute; where it is a URL, in this percent triple and this reference.
#[inline(always)]
pub fn in_value(
    text: &[u8],
    index: usize,
    class: Class,
    place: ValuePlace,
    triple: Triple,
    reference: Option<OpenReference>,
) -> Scan
    requires inside { index < length text.now }
    requires pending { reference_from reference ≤ index }
    ensures scan { scan_at text.now (index + 1) result
        ≡ value_next place (triple_at triple) (open_reference_at text.now index reference)
        (class_at class) (get_or text.now index 0) }
    ensures pending { pending_from result ≤ index + 1 }
{
    match (place.quotes, class) {
        (Quotes::Dq, Class::QuotationMark) => Scan::At(before_name(place.tag, place.typed)),
        (Quotes::Sq, Class::Apostrophe) => Scan::At(before_name(place.tag, place.typed)),
        (Quotes::Bare(bare), _) => in_bare(text, index, class, place, bare.uq, triple, reference),
        (quotes, _) => fed(text, index, class, place, quotes, triple, reference),
    }
}

/// The same, where it is a URL in a percent triple or in a reference.
pub fn in_lexeme(
    text: &[u8],
    index: usize,
    class: Class,
    place: ValuePlace,
    triple: Triple,
    reference: Option<OpenReference>,
) -> Scan
    requires inside { index < length text.now }
    requires pending { reference_from reference ≤ index }
    ensures scan { scan_at text.now (index + 1) result
        ≡ value_next place (triple_at triple) (open_reference_at text.now index reference)
        (class_at class) (get_or text.now index 0) }
    ensures pending { pending_from result ≤ index + 1 }
{
    in_value(text, index, class, place, triple, reference)
}

/// In a value that is a style, in a lexeme of it or in a reference.
pub fn in_style(
    text: &[u8],
    index: usize,
    class: Class,
    place: ValuePlace,
    style: StyleScan,
    reference: Option<OpenReference>,
) -> Scan
    requires inside { index < length text.now }
    requires pending { reference_from reference ≤ index }
    ensures scan { scan_at text.now (index + 1) result ≡ style_value_next place
        (style_scan_at style) (open_reference_at text.now index reference) (class_at class)
        (get_or text.now index 0) }
    ensures pending { pending_from result ≤ index + 1 }
{
    match (place.quotes, class) {
        (Quotes::Dq, Class::QuotationMark) => Scan::At(before_name(place.tag, place.typed)),
        (Quotes::Sq, Class::Apostrophe) => Scan::At(before_name(place.tag, place.typed)),
        (Quotes::Bare(bare), _) => in_bare_style(
            text, index, class, place, bare.uq, style, reference,
        ),
        (quotes, _) => styles::fed(text, index, class, between(place, quotes), style, reference),
    }
}

// The same without quotes.
fn in_bare_style(
    text: &[u8],
    index: usize,
    class: Class,
    place: ValuePlace,
    begun: bool,
    style: StyleScan,
    reference: Option<OpenReference>,
) -> Scan
    requires inside { index < length text.now }
    requires pending { reference_from reference ≤ index }
    ensures scan { scan_at text.now (index + 1) result ≡ bare_leads place begun (class_at class)
        (style_fed (spec.value_between place spec.bare_begun) (style_scan_at style)
        (open_reference_at text.now index reference) (class_at class) (get_or text.now index 0)) }
    ensures pending { pending_from result ≤ index + 1 }
{
    match led(class, place, begun) {
        Some(place) => Scan::At(place),
        None => styles::fed(text, index, class, between(place, BEGUN), style, reference),
    }
}

/// In a value that is a script, behind a byte of the text or in a reference.
pub fn in_script(
    text: &[u8],
    index: usize,
    class: Class,
    place: ValuePlace,
    script: ScriptScan,
    reference: Option<OpenReference>,
) -> Scan
    requires inside { index < length text.now }
    requires pending { script_from (script_count script) reference ≤ index }
    ensures scan { scan_at text.now (index + 1) result ≡ script_value_next place
        (script_scan_at script) (open_reference_at text.now index reference) (class_at class)
        (get_or text.now index 0) }
    ensures pending { pending_from result ≤ index + 1 }
{
    match (place.quotes, class) {
        (Quotes::Dq, Class::QuotationMark) => Scan::At(before_name(place.tag, place.typed)),
        (Quotes::Sq, Class::Apostrophe) => Scan::At(before_name(place.tag, place.typed)),
        (Quotes::Bare(bare), _) => in_bare_script(
            text, index, class, place, bare.uq, script, reference,
        ),
        (quotes, _) => scripts::fed(
            text,
            index,
            class,
            between(place, quotes),
            script,
            reference,
        ),
    }
}

// The same without quotes.
fn in_bare_script(
    text: &[u8],
    index: usize,
    class: Class,
    place: ValuePlace,
    begun: bool,
    script: ScriptScan,
    reference: Option<OpenReference>,
) -> Scan
    requires inside { index < length text.now }
    requires pending { script_from (script_count script) reference ≤ index }
    ensures scan { scan_at text.now (index + 1) result ≡ bare_leads place begun (class_at class)
        (script_fed_next (spec.value_between place spec.bare_begun) (script_scan_at script)
        (open_reference_at text.now index reference) (class_at class) (get_or text.now index 0)) }
    ensures pending { pending_from result ≤ index + 1 }
{
    match led(class, place, begun) {
        Some(place) => Scan::At(place),
        None => scripts::fed(text, index, class, between(place, BEGUN), script, reference),
    }
}

// In a value without quotes, or before one.
fn in_bare(
    text: &[u8],
    index: usize,
    class: Class,
    place: ValuePlace,
    begun: bool,
    triple: Triple,
    reference: Option<OpenReference>,
) -> Scan
    requires inside { index < length text.now }
    requires pending { reference_from reference ≤ index }
    ensures scan { scan_at text.now (index + 1) result
        ≡ bare_next place begun (triple_at triple) (open_reference_at text.now index reference)
        (class_at class) (get_or text.now index 0) }
    ensures pending { pending_from result ≤ index + 1 }
{
    match led(class, place, begun) {
        Some(place) => Scan::At(place),
        None => fed(text, index, class, place, BEGUN, triple, reference),
    }
}

// Where a byte leads there; none where the value goes on with it.
#[inline(always)]
fn led(class: Class, place: ValuePlace, begun: bool) -> Option<Place>
    ensures { (goes_on : spec.Scan) → unless_led result goes_on
        ≡ bare_leads place begun (class_at class) goes_on }
{
    match class {
        Class::White if begun => Some(before_name(place.tag, place.typed)),
        Class::White => Some(with_quotes(place, UNBEGUN)),
        Class::QuotationMark => Some(with_quotes(place, Quotes::Dq)),
        Class::Apostrophe => Some(with_quotes(place, Quotes::Sq)),
        Class::GreaterThan => Some(content(place.tag)),
        _ => None,
    }
}

// A byte of a value, between these quotes.
#[inline(always)]
fn fed(
    text: &[u8],
    index: usize,
    class: Class,
    place: ValuePlace,
    quotes: Quotes,
    triple: Triple,
    reference: Option<OpenReference>,
) -> Scan
    requires inside { index < length text.now }
    requires pending { reference_from reference ≤ index }
    ensures scan { scan_at text.now (index + 1) result
        ≡ value_fed place quotes place.body (triple_at triple)
        (open_reference_at text.now index reference) (class_at class) (get_or text.now index 0) }
    ensures pending { pending_from result ≤ index + 1 }
{
    match place.body {
        Body::Url(parts) => {
            let url = UrlPoint { parts, triple };
            in_url(text, index, class, place, quotes, url, reference)
        }
        Body::Css(css) => {
            let style = css_step::start(css);
            styles::fed(
                text,
                index,
                class,
                empty_style_between(place, quotes),
                style,
                reference,
            )
        }
        Body::Js(js) => {
            let place = empty_script_between(place, quotes);
            scripts::fed(text, index, class, place, scripts::begun(js), reference)
        }
        Body::Plain | Body::NoHole => Scan::At(with_quotes(place, quotes)),
    }
}

fn with_quotes(place: ValuePlace, quotes: Quotes) -> Place
    ensures { At result ≡ spec.with_quotes place quotes }
{
    Place::Value(between(place, quotes))
}

// The scan state of a style has its body, so that the place in it has that of an empty one.
fn empty_style_between(place: ValuePlace, quotes: Quotes) -> ValuePlace
    ensures { result ≡ spec.empty_style_between place quotes }
{
    let empty = CssTails {
        word: false,
        slash: false,
        lt: false,
    };
    ValuePlace {
        quotes,
        body: Body::Css(Css::Code(empty)),
        ..place
    }
}

// So has that of a script.
fn empty_script_between(place: ValuePlace, quotes: Quotes) -> ValuePlace
    ensures { result ≡ spec.empty_script_between place quotes }
{
    ValuePlace {
        quotes,
        body: Body::Js(SCRIPT_START),
        ..place
    }
}

fn between(place: ValuePlace, quotes: Quotes) -> ValuePlace
    ensures { result ≡ spec.value_between place quotes }
{
    ValuePlace { quotes, ..place }
}
