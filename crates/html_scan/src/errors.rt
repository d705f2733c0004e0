ghost use Rattle.std.specs.Prelude.{◌≡◌, ◌<◌, ◌≤◌, IfSome, None, get_or, length, if◌then◌else◌};
ghost use Rattle.place_core.specs.declared.code.Code.TheVariants as code;
ghost use Rattle.place_core.specs.place.Errors.{attribute_name_error, bare_error, block_byte_error, block_error, comment_error, equals_error, quotes_error, tag_error, tag_name_error, unless_second, value_error};
ghost use Rattle.std.specs.Str.{str_to_ascii_lowercase as lower};
ghost use Rattle.place_core.specs.page.Tags.{element_on, is_second_type};
ghost use Rattle.place_core.specs.page.States.{PendingBangDash};
ghost use Rattle.place_core.specs.page.Words.{kind_of};
ghost use Rattle.css_step.specs.StyleScanViews.{style_scan_at};
ghost use Rattle.js_step.specs.ScriptScanViews.{script_scan_at};
ghost use Rattle.html_scan.specs.ClassViews.{class_at};
ghost use Rattle.html_scan.specs.ScanViews.{cause_at, open_reference_at, reference_from, script_count, script_from};
ghost use Rattle.html_scan.specs.Scans.{place_cause, script_cause, style_cause, value_cause};
ghost use Rattle.place_core.specs.place.Errors as spec;
ghost use Rattle.place_core.specs.declared.tag_of.TagOf.{TagOf};

use crate::cause::Cause;
use crate::class::Class;
use crate::names::kind_on;
use crate::references::OpenReference;
use crate::script_element_refusals::refused_in_element;
use crate::script_pending::ScriptPending;
use crate::script_refusals::refused_in_script;
use crate::style_refusals::refused_in_style;
use crate::url_refusals::refused_in_url;
use crate::{scripts, style_elements};
use css_step::StyleScan;
use js_step::ScriptScan;
use place_core::{Bare, Body, Code, Kind, Place, Quotes, TagOf, TagPlace, ValuePlace};

/// Why a byte is refused at a place.
#[inline(always)]
pub fn at_place(text: &[u8], index: usize, class: Class, place: Place) -> Option<Cause>
    requires inside { index < length text.now }
    ensures error { cause_at result
        ≡ place_cause place (class_at class) (get_or text.now index 0) }
    ensures bound { IfSome result (λ cause. (cause.back ≤ index) × (cause.shown ≤ index)) }
{
    match place {
        Place::Text | Place::Doctype | Place::Rcdata(_) => None,
        Place::Comment(dash) => at_hand(in_comment(dash, class)),
        Place::Tag(tag) => at_hand(in_tag(tag, class)),
        Place::Value(value) => in_value(text, index, class, value, None),
        Place::Block(less) => at_hand(in_block(less, class)),
        Place::Style(css) => at_hand(style_elements::refused(
            css_step::start(css),
            class,
            text[index],
        )),
        Place::Script(js) => {
            refused_in_element(
                text,
                index,
                class,
                scripts::begun(js),
                ScriptPending::Nothing,
            )
        }
    }
}

/// Why a byte is refused in the name of a tag.
pub fn in_tag_name(class: Class) -> Option<Code>
    ensures { (t : TagOf) → result ≡ tag_name_error t (class_at class) }
{
    match class {
        Class::QuotationMark | Class::Apostrophe | Class::LessThan => Some(Code::BadHTML),
        _ => None,
    }
}

/// Why a byte is refused in the name of an attribute, of which this has been read.
pub fn in_attribute_name(tag: TagOf, typed: bool, name: &[u8], class: Class) -> Option<Cause>
    ensures error { cause_at result ≡ attribute_name_error tag typed
        (kind_of (element_on tag) (lower name.now)) (length name.now) (class_at class) }
    ensures bound { IfSome result (λ cause.
        (cause.back ≤ length name.now) × (cause.shown ≤ length name.now)) }
{
    match class {
        Class::White | Class::Solidus | Class::EqualsSign | Class::GreaterThan => {
            name_ends(typed, kind_on(tag, name), name.len())
        }
        Class::QuotationMark | Class::Apostrophe | Class::LessThan => at_hand(Some(Code::BadHTML)),
        _ => None,
    }
}

/// Why the end of an attribute's name is refused: a second `type` of a script, at its first byte.
pub fn name_ends(typed: bool, kind: Kind, len: usize) -> Option<Cause>
    ensures error { cause_at result ≡ unless_second (is_second_type typed kind) len None }
    ensures bound { IfSome result (λ cause. (cause.back ≤ len) × (cause.shown ≤ len)) }
{
    if is_second(typed, kind) {
        return Some(Cause {
            code: Code::BadHTML,
            back: len,
            shown: len,
        });
    }
    None
}

// Where paths stand at several spots, a byte may be refused on some of them alone.
fn in_tag(place: TagPlace, class: Class) -> Option<Code>
    ensures { result ≡ tag_error place (class_at class) }
{
    match class {
        Class::White | Class::Solidus | Class::GreaterThan => None,
        Class::EqualsSign => equals_sign(place.spots.name, place.spots.before),
        Class::QuotationMark | Class::Apostrophe | Class::LessThan => Some(no_name(
            place.spots.name,
        )),
        _ => {
            if place.spots.name || place.spots.inside {
                Some(Code::SplitToken)
            } else {
                None
            }
        }
    }
}

// A quotation mark, an apostrophe or a `<`, which is part of no name.
fn no_name(name: bool) -> Code
    ensures { result ≡ (if name then code.SplitToken else code.BadHTML) }
{
    if name {
        Code::SplitToken
    } else {
        Code::BadHTML
    }
}

// An equals sign begins a value after a name alone.
fn equals_sign(name: bool, before: bool) -> Option<Code>
    ensures { result ≡ equals_error name before }
{
    if name {
        Some(Code::SplitToken)
    } else if before {
        Some(Code::BadHTML)
    } else {
        None
    }
}

// In a value, by its language and then by its quotes; where it is a URL, in this reference.
#[inline(always)]
fn in_value(
    text: &[u8],
    index: usize,
    class: Class,
    place: ValuePlace,
    reference: Option<OpenReference>,
) -> Option<Cause>
    requires inside { index < length text.now }
    requires pending { reference_from reference ≤ index }
    ensures error { cause_at result ≡ value_cause place
        (open_reference_at text.now index reference) (class_at class) (get_or text.now index 0) }
    ensures bound { IfSome result (λ cause. (cause.back ≤ index) × (cause.shown ≤ index)) }
{
    match place.body {
        Body::Plain | Body::NoHole => at_hand(in_quotes(place.quotes, class)),
        Body::Url(parts) => match refused_in_url(
            text,
            index,
            class,
            place.quotes,
            parts,
            reference,
        ) {
            Some(cause) => Some(cause),
            None => at_hand(in_quotes(place.quotes, class)),
        },
        Body::Css(css) => {
            let style = css_step::start(css);
            in_style(text, index, class, place, style, reference)
        }
        Body::Js(js) => {
            let script = scripts::begun(js);
            in_script(text, index, class, place, script, reference)
        }
    }
}

/// The same, where it is a URL in a percent triple or in a reference.
pub fn in_lexeme(
    text: &[u8],
    index: usize,
    class: Class,
    place: ValuePlace,
    reference: Option<OpenReference>,
) -> Option<Cause>
    requires inside { index < length text.now }
    requires pending { reference_from reference ≤ index }
    ensures error { cause_at result ≡ value_cause place
        (open_reference_at text.now index reference) (class_at class) (get_or text.now index 0) }
    ensures bound { IfSome result (λ cause. (cause.back ≤ index) × (cause.shown ≤ index)) }
{
    in_value(text, index, class, place, reference)
}

/// In a value that is a style.
pub fn in_style(
    text: &[u8],
    index: usize,
    class: Class,
    place: ValuePlace,
    style: StyleScan,
    reference: Option<OpenReference>,
) -> Option<Cause>
    requires inside { index < length text.now }
    requires pending { reference_from reference ≤ index }
    ensures error { cause_at result ≡ style_cause place (style_scan_at style)
        (open_reference_at text.now index reference) (class_at class) (get_or text.now index 0) }
    ensures bound { IfSome result (λ cause. (cause.back ≤ index) × (cause.shown ≤ index)) }
{
    match refused_in_style(text, index, class, place.quotes, style, reference) {
        Some(cause) => Some(cause),
        None => at_hand(of_value(place, class)),
    }
}

/// In a value that is a script.
pub fn in_script(
    text: &[u8],
    index: usize,
    class: Class,
    place: ValuePlace,
    script: ScriptScan,
    reference: Option<OpenReference>,
) -> Option<Cause>
    requires inside { index < length text.now }
    requires pending { script_from (script_count script) reference ≤ index }
    ensures error { cause_at result ≡ script_cause place (script_scan_at script)
        (open_reference_at text.now index reference) (class_at class) (get_or text.now index 0) }
    ensures bound { IfSome result (λ cause. (cause.back ≤ index) × (cause.shown ≤ index)) }
{
    match refused_in_script(text, index, class, place.quotes, script, reference) {
        Some(cause) => Some(cause),
        None => at_hand(of_value(place, class)),
    }
}

// In a value, but for what its language says of the bytes.
fn of_value(place: ValuePlace, class: Class) -> Option<Code>
    ensures { result ≡ value_error place (class_at class) }
{
    match place.body {
        Body::Plain | Body::NoHole | Body::Url(_) | Body::Css(_) | Body::Js(_) => {
            in_quotes(place.quotes, class)
        }
    }
}

/// In a value, or before one, whatever its language.
pub fn in_quotes(quotes: Quotes, class: Class) -> Option<Code>
    ensures { (t : TagOf) → result ≡ quotes_error t quotes (class_at class) }
{
    match quotes {
        Quotes::Dq | Quotes::Sq => None,
        Quotes::Bare(bare) => in_bare(bare, class),
    }
}

// In a value without quotes, or before one.
fn in_bare(bare: Bare, class: Class) -> Option<Code>
    ensures { (t : TagOf) → result ≡ bare_error t bare (class_at class) }
{
    match class {
        Class::White if bare.uq && bare.unbegun => Some(Code::AmbigContext),
        Class::QuotationMark | Class::Apostrophe if bare.uq => Some(Code::BadHTML),
        Class::LessThan | Class::EqualsSign | Class::GraveAccent => Some(Code::BadHTML),
        _ => None,
    }
}

// Where a text has ended in what may be the end of a comment, no other goes on with it.
fn in_comment(dash: bool, class: Class) -> Option<Code>
    ensures { result ≡ comment_error dash (class_at class) }
{
    match class {
        Class::HyphenMinus | Class::ExclamationMark | Class::GreaterThan if dash => Some(
            Code::SplitToken,
        ),
        _ => None,
    }
}

// Where a text has ended in `<` in a data block, no other goes on with what that may begin.
fn in_block(less: bool, class: Class) -> Option<Code>
    ensures { result ≡ block_error less (class_at class) }
{
    match class {
        Class::Solidus | Class::ExclamationMark if less => Some(Code::SplitToken),
        _ => None,
    }
}

/// In a data block, after `<!-`: the byte that makes it `<!--`.
pub fn after_block_bang_dash(class: Class) -> Option<Cause>
    ensures error { cause_at result ≡ block_byte_error PendingBangDash (class_at class) }
    ensures bound { IfSome result (λ cause. (cause.back ≤ 3) × (cause.shown ≤ 3)) }
{
    match class {
        Class::HyphenMinus => Some(Cause {
            code: Code::HtmlInScript,
            back: 3,
            shown: 3,
        }),
        _ => None,
    }
}

fn is_second(typed: bool, kind: Kind) -> bool
    ensures { result ≡ is_second_type typed kind }
{
    typed && matches!(kind, Kind::ScriptType)
}

/// A cause that stands at the byte at hand.
pub fn at_hand(code: Option<Code>) -> Option<Cause>
    ensures error { cause_at result ≡ spec.at_hand code }
    ensures bound { IfSome result (λ cause. (cause.back ≤ 0) × (cause.shown ≤ 0)) }
{
    match code {
        Some(code) => Some(Cause {
            code,
            back: 0,
            shown: 0,
        }),
        None => None,
    }
}
