ghost use Rattle.std.specs.Prelude.{◌≡◌, ◌<◌, ◌≤◌, ◌^◌, ℕ, List, None, Ok, Err, get_or, length};
ghost use Rattle.place_core.specs.place.Places.{Has, IsValid};
ghost use Rattle.place_core.specs.declared.step_err.StepErr.{StepErr};
ghost use Rattle.css_step.specs.StyleScanViews.{style_scan_at};
ghost use Rattle.js_step.specs.ScriptScanViews.{script_scan_at};
ghost use Rattle.html_scan.specs.ClassViews.{class_at};
ghost use Rattle.html_scan.specs.ScanViews.{open_reference_at, pending_from, reference_from, scan_at, script_count, script_from};
ghost use Rattle.html_scan.specs.Scans.{At};
ghost use Rattle.html_step.specs.Laws.{IsOrigin, IsEvidence};
ghost use Rattle.html_step.specs.OriginViews.{evidence_at};
ghost use Rattle.html_step.specs.Origins.{quotes_show, script_value_shows, shows, style_value_shows, url_shows, value_shows};
ghost use Rattle.html_step.specs.Origins as spec;
ghost use Rattle.html_step.specs.Steps as steps;

use crate::element_showing;
use crate::evidence::Evidence;
use crate::origins::{Origins, name_origin, spells_apart};
use crate::script_showing::{script_shown, shown_at_cut};
use crate::style_showing::{shown_at_end, shown_in_style};
use css_step::StyleScan;
use html_scan::{
    Class, OpenReference, Scan, at_byte, begun_script, class_of, next, pending, refused_in_script,
    refused_in_style, refused_in_url,
};
use js_step::ScriptScan;
use place_core::{Body, Code, Member, Parts, Place, Quotes, Spots, ValuePlace};

/// A member of a place that a member of the place after a text comes from: every path that bears the one comes to bear the other.
/// Does not allocate.
pub fn text_from(place: Place, text: &str, member: Member) -> Member
    requires valid { IsValid place }
    requires length { length text.now < 2 ^ 32 }
    requires accepted { (q : Place) × (steps.after_text text.now place ≡ Ok q) × Has q member }
    ensures { IsOrigin text.now place member result }
{
    origin(text.as_bytes(), place, member)
}

/// What shows that a text is refused: a member of the place, every path of which is refused by the same code at the same byte, or two,
/// any two paths of which are refused together there. Where the text is accepted the answer says nothing. Does not allocate.
pub fn text_evidence(place: Place, text: &str) -> Evidence
    requires valid { IsValid place }
    requires length { length text.now < 2 ^ 32 }
    ensures { (e : StepErr Place) → steps.after_text text.now place ≡ Err e
        → IsEvidence text.now place e (evidence_at result) }
{
    evidence(text.as_bytes(), place)
}

fn origin(text: &[u8], place: Place, member: Member) -> Member
    ensures { result ≡ spec.origin text.now (At place) member }
{
    let mut scan = Scan::At(place);
    let mut origins = Origins::same();
    for index in 0..text.len() {
        let class = class_of(text[index]);
        origins = origins.then(text, index, class, scan);
        scan = next(text, index, class, scan);
    }
    origins.of_end(text, scan, member)
}

fn evidence(text: &[u8], place: Place) -> Evidence
    ensures { evidence_at result ≡ shows text.now (At place) }
{
    let mut scan = Scan::At(place);
    let mut origins = Origins::same();
    let mut apart = Evidence::Apart;
    for index in 0..text.len() {
        let class = class_of(text[index]);
        if let Some(shown) = script_shown(text, index, class, scan) {
            return origins.of_evidence(shown, apart);
        }
        if at_byte(text, index, class, scan).is_some() {
            return origins.of_evidence(byte_shows(text, index, class, scan), apart);
        }
        apart = origins.of_apart(scan, apart);
        origins = origins.then(text, index, class, scan);
        scan = next(text, index, class, scan);
    }
    match shown_at_cut(text, scan) {
        Some(shown) => origins.of_evidence(shown, apart),
        None => Evidence::One(origins.of(end_shows(text, scan))),
    }
}

// What shows that a byte is refused.
fn byte_shows(text: &[u8], index: usize, class: Class, scan: Scan) -> Evidence
    requires inside { index < length text.now }
    requires pending { pending_from scan ≤ index }
    ensures { evidence_at result ≡ spec.byte_shows (scan_at text.now index scan)
        (class_at class) (get_or text.now index 0) }
{
    match scan {
        Scan::At(place) => place_shows(text, index, class, place),
        Scan::InAttributeName { typed, .. } => Evidence::One(name_origin(typed)),
        Scan::InUrl {
            place,
            reference,
            ..
        } => in_value(text, index, class, place, reference),
        Scan::InStyle {
            place,
            style,
            reference,
        } => in_style(text, index, class, place.quotes, style, reference),
        Scan::InScript {
            place,
            script,
            reference,
        } => in_script(text, index, class, place.quotes, script, reference),
        Scan::InStyleElement(style) => element_showing::in_element(class, text[index], style),
        Scan::AfterStyleLess(style) => element_showing::after_less(class, text[index], style),
        Scan::InStyleName { style, from } => {
            element_showing::in_name(text, index, class, style, from)
        }
        _ => Evidence::One(Member::Whole),
    }
}

fn place_shows(text: &[u8], index: usize, class: Class, place: Place) -> Evidence
    requires inside { index < length text.now }
    ensures { evidence_at result
        ≡ spec.place_shows place (class_at class) (get_or text.now index 0) }
{
    match place {
        Place::Comment(_) => Evidence::One(Member::CommentDash),
        Place::Tag(tag) => Evidence::One(tag_shows(class, tag.spots)),
        Place::Value(value) => in_value(text, index, class, value, None),
        Place::Block(_) => Evidence::One(Member::BlockLt),
        Place::Style(css) => {
            element_showing::in_element(class, text[index], css_step::start(css))
        }
        _ => Evidence::One(Member::Whole),
    }
}

// In a value, by what its language refuses and then by its quotes.
fn in_value(
    text: &[u8],
    index: usize,
    class: Class,
    place: ValuePlace,
    reference: Option<OpenReference>,
) -> Evidence
    requires inside { index < length text.now }
    requires pending { reference_from reference ≤ index }
    ensures { evidence_at result ≡ value_shows place
        (open_reference_at text.now index reference) (class_at class) (get_or text.now index 0) }
{
    match place.body {
        Body::Plain | Body::NoHole => in_quotes(place.quotes, class),
        Body::Url(parts) => {
            match refused_in_url(text, index, class, place.quotes, parts, reference) {
                Some(cause) => in_url(parts, cause.code),
                None => in_quotes(place.quotes, class),
            }
        }
        Body::Css(css) => {
            let style = css_step::start(css);
            in_style(text, index, class, place.quotes, style, reference)
        }
        Body::Js(js) => {
            let script = begun_script(js);
            match refused_in_script(text, index, class, place.quotes, script, reference) {
                Some(_) => Evidence::One(Member::Whole),
                None => in_quotes(place.quotes, class),
            }
        }
    }
}

// In a style, which has been scanned so.
fn in_style(
    text: &[u8],
    index: usize,
    class: Class,
    quotes: Quotes,
    style: StyleScan,
    reference: Option<OpenReference>,
) -> Evidence
    requires inside { index < length text.now }
    requires pending { reference_from reference ≤ index }
    ensures { (v : ValuePlace) → v.quotes ≡ quotes → evidence_at result ≡ style_value_shows v
        (style_scan_at style) (open_reference_at text.now index reference) (class_at class)
        (get_or text.now index 0) }
{
    match refused_in_style(text, index, class, quotes, style, reference) {
        Some(cause) => shown_in_style(text, index, class, style, reference, cause.code),
        None => in_quotes(quotes, class),
    }
}

// In a script, which has been scanned so and refuses none of the bytes that it is fed.
fn in_script(
    text: &[u8],
    index: usize,
    class: Class,
    quotes: Quotes,
    script: ScriptScan,
    reference: Option<OpenReference>,
) -> Evidence
    requires inside { index < length text.now }
    requires pending { script_from (script_count script) reference ≤ index }
    ensures { (v : ValuePlace) → v.quotes ≡ quotes → evidence_at result ≡ script_value_shows v
        (script_scan_at script) (open_reference_at text.now index reference) (class_at class)
        (get_or text.now index 0) }
{
    match refused_in_script(text, index, class, quotes, script, reference) {
        Some(_) => Evidence::One(Member::Whole),
        None => in_quotes(quotes, class),
    }
}

fn in_url(parts: Parts, code: Code) -> Evidence
    ensures { evidence_at result ≡ url_shows parts code }
{
    match code {
        Code::BadHTML => Evidence::One(Member::Whole),
        _ => colon_shows(parts),
    }
}

/// What shows that a URL refuses a `:`.
pub fn colon_shows(parts: Parts) -> Evidence
    ensures { evidence_at result ≡ spec.colon_shows parts }
{
    if parts.openhole {
        return Evidence::One(Member::PartOpenhole);
    }
    if spells_apart(parts) {
        return Evidence::Apart;
    }
    Evidence::Two(Member::PartStart, Member::PartOpen)
}

fn in_quotes(quotes: Quotes, class: Class) -> Evidence
    ensures { evidence_at result ≡ quotes_show None quotes (class_at class) }
{
    match quotes {
        Quotes::Bare(_) => bare_shows(class),
        Quotes::Dq | Quotes::Sq => Evidence::One(Member::Whole),
    }
}

fn bare_shows(class: Class) -> Evidence
    ensures { evidence_at result ≡ spec.bare_shows (class_at class) }
{
    match class {
        Class::White => Evidence::Two(Member::UnquotedValue, Member::UnbegunValue),
        Class::QuotationMark | Class::Apostrophe => Evidence::One(Member::UnquotedValue),
        _ => Evidence::One(Member::Whole),
    }
}

// The spot in a tag at which a byte is refused.
fn tag_shows(class: Class, spots: Spots) -> Member
    ensures { result ≡ spec.tag_shows (class_at class) spots }
{
    match class {
        Class::White | Class::Solidus | Class::GreaterThan => Member::Whole,
        _ if spots.name => Member::NameSpot,
        Class::EqualsSign if spots.before => Member::BeforeSpot,
        Class::EqualsSign | Class::QuotationMark | Class::Apostrophe | Class::LessThan => {
            Member::Whole
        }
        _ => Member::InsideSpot,
    }
}

// What shows that the end of a text is refused.
fn end_shows(text: &[u8], scan: Scan) -> Member
    requires pending { pending_from scan ≤ length text.now }
    ensures { result ≡ spec.end_shows (scan_at text.now (length text.now) scan) }
{
    match scan {
        Scan::InAttributeName { typed, .. } => name_origin(typed),
        Scan::InStyle {
            style,
            reference,
            ..
        } => shown_at_end(text, style, reference),
        Scan::AfterStyleLess(style) => element_showing::at_less(style),
        Scan::InStyleName { style, from } => {
            element_showing::at_name(style, pending(text, from + 2, text.len()))
        }
        _ => Member::Whole,
    }
}
