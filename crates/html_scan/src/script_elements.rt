// The content of the element `script`, on all paths together: where a byte leads, and why one is refused. What is pending back, as HTML
// may read its end tag, is fed to the script where it comes to nothing.
ghost use Rattle.std.specs.Prelude.{◌≡◌, ◌+◌, ◌<◌, ◌≤◌, ℕ, List, drop, get_or, if◌then◌else◌, length, option_map};
ghost use Rattle.js_step.specs.ScriptScanViews.{script_scan_at};
ghost use Rattle.js_step.specs.ScriptScans.{script_scan_place, script_scan_shown, script_scan_start};
ghost use Rattle.place_core.specs.declared.element.Element.TheVariants as element;
ghost use Rattle.place_core.specs.declared.place.Place.TheVariants as place;
ghost use Rattle.place_core.specs.page.Contents.{pending_bytes};
ghost use Rattle.place_core.specs.page.States.{Nothing};
ghost use Rattle.place_core.specs.page.Tags.{feed_bytes};
ghost use Rattle.place_core.specs.place.Errors.{pending_before};
ghost use Rattle.html_scan.specs.ClassViews.{class_at};
ghost use Rattle.html_scan.specs.ScanViews.{pending_from, pending_length, scan_at, script_pending_at, script_reach};
ghost use Rattle.html_scan.specs.Scans.{pending_left, script_element_next, script_fed_byte, script_feeding, script_scan_may_end};
ghost use Rattle.html_scan.specs.Scans as spec;
ghost use Rattle.html_scan.specs.ScriptStepViews.{pending_letters, pending_opens};

use crate::class::{Class, class_of};
use crate::names::{is_name_of, may_be_name_of};
use crate::scan::Scan;
use crate::script_pending::ScriptPending;
use crate::script_steps::{ScriptStep, script_step};
use crate::scripts::{after_byte, after_bytes, begun};
use crate::slices::pending;
use crate::style_elements::end_tag_goes_on;
use crate::tags::before_name;
use js_step::{ScriptAt, ScriptScan, is_outside};
use place_core::{Element, Js, Place, TagOf};

/// At a place in it.
pub fn at_place(text: &[u8], index: usize, class: Class, js: Js) -> Scan
    requires inside { index < length text.now }
    ensures scan { scan_at text.now (index + 1) result ≡ script_element_next (script_scan_start js)
        Nothing (class_at class) (get_or text.now index 0) }
    ensures pending { pending_from result ≤ index + 1 }
{
    in_element(text, index, class, begun(js), ScriptPending::Nothing)
}

/// Behind a byte of the text.
pub fn in_element(
    text: &[u8],
    index: usize,
    class: Class,
    script: ScriptScan,
    back: ScriptPending,
) -> Scan
    requires inside { index < length text.now }
    requires pending { script_reach script + pending_length back ≤ index }
    ensures scan { scan_at text.now (index + 1) result
        ≡ script_element_next (script_scan_at script) (script_pending_at text.now index back)
        (class_at class) (get_or text.now index 0) }
    ensures pending { pending_from result ≤ index + 1 }
{
    match script_step(text, index, class, may_end(script), back) {
        ScriptStep::Holds(pending) => Scan::InScriptElement { script, pending },
        ScriptStep::Releases => Scan::InScriptElement {
            script: behind_pending(text, index, script, back),
            pending: ScriptPending::Less,
        },
        ScriptStep::Reads => Scan::InScriptElement {
            script: behind_byte(text, index, script, back),
            pending: ScriptPending::Nothing,
        },
        ScriptStep::Ends { .. } => Scan::At(behind_end_name(class)),
    }
}

// The script behind what is pending back, and behind the byte. Mostly nothing is pending.
fn behind_byte(text: &[u8], index: usize, script: ScriptScan, back: ScriptPending) -> ScriptScan
    requires inside { index < length text.now }
    requires pending { script_reach script + pending_length back ≤ index }
    ensures fed { script_scan_at result ≡ script_fed_byte (feed_bytes script_feeding
        (script_scan_at script) (pending_bytes (script_pending_at text.now index back)))
        (get_or text.now index 0) }
    ensures reach { script_reach result ≤ index + 1 }
{
    match back {
        ScriptPending::Nothing => after_byte(script, text[index]),
        _ => after_byte(behind_pending(text, index, script, back), text[index]),
    }
}

// Behind the letters of the end tag.
fn behind_end_name(class: Class) -> Place
    ensures { spec.At result ≡ spec.behind_end_name (class_at class) }
{
    match class {
        Class::White | Class::Solidus => before_name(TagOf::End, false),
        _ => Place::Text,
    }
}

/// Whether an end tag may end the script.
pub fn may_end(script: ScriptScan) -> bool
    ensures { result ≡ script_scan_may_end (script_scan_at script) }
{
    if !is_outside(script.literals) {
        return false;
    }
    match script.at {
        ScriptAt::Slash(_) => script.senses.brace || script.senses.div,
        ScriptAt::InString(_, _)
        | ScriptAt::InRegexp(_, _)
        | ScriptAt::InTemplate(_, _)
        | ScriptAt::TooDeep => false,
        _ => true,
    }
}

/// What is pending back begins with this, but for its letters.
pub fn opening(back: ScriptPending) -> &'static [u8]
    ensures bytes { (text : List ℕ) (k : ℕ)
        → result.now ≡ pending_opens (script_pending_at text k back) }
{
    match back {
        ScriptPending::Nothing => b"",
        ScriptPending::Less | ScriptPending::Opening { .. } => b"<",
        ScriptPending::Name { .. } => b"</",
        ScriptPending::Bang => b"<!",
        ScriptPending::BangDash => b"<!-",
    }
}

/// Its letters.
pub fn letters_of(text: &[u8], index: usize, back: ScriptPending) -> &[u8]
    requires inside { index ≤ length text.now }
    requires pending { pending_length back ≤ index }
    ensures letters { result.now ≡ pending_letters (script_pending_at text.now index back) }
    ensures len { length (pending_opens (script_pending_at text.now index back))
        + length result.now ≡ pending_length back }
{
    match back {
        ScriptPending::Name { letters } | ScriptPending::Opening { letters } => {
            pending(text, index - letters, index)
        }
        _ => b"",
    }
}

/// The script behind what is pending back.
pub fn behind_pending(
    text: &[u8],
    index: usize,
    script: ScriptScan,
    back: ScriptPending,
) -> ScriptScan
    requires inside { index ≤ length text.now }
    requires pending { script_reach script + pending_length back ≤ index }
    ensures fed { script_scan_at result ≡ feed_bytes script_feeding (script_scan_at script)
        (pending_bytes (script_pending_at text.now index back)) }
    ensures reach { script_reach result ≤ script_reach script + pending_length back }
{
    match back {
        ScriptPending::Nothing => script,
        _ => {
            let opened = after_bytes(script, opening(back));
            after_bytes(opened, letters_of(text, index, back))
        }
    }
}

/// What is pending before the bytes that are left: nothing of it where the next one does not go on with what HTML may read.
pub fn script_left(text: &[u8], index: usize, script: ScriptScan, back: ScriptPending) -> ScriptScan
    requires inside { index ≤ length text.now }
    requires pending { script_reach script + pending_length back ≤ index }
    ensures { script_scan_at result ≡ feed_bytes script_feeding (script_scan_at script)
        (pending_bytes (pending_left element.Script (script_pending_at text.now index back)
        (drop index text.now))) }
{
    let (read, left) = text.split_at(index);
    match left.split_first() {
        None => behind_pending(read, index, script, back),
        Some((byte, _)) => {
            if goes_on(text, index, class_of(*byte), back) {
                script
            } else {
                behind_pending(read, index, script, back)
            }
        }
    }
}

// Whether a byte goes on with the end tag that may be pending.
fn goes_on(text: &[u8], index: usize, class: Class, back: ScriptPending) -> bool
    requires inside { index < length text.now }
    requires pending { pending_length back ≤ index }
    ensures { let h = script_pending_at text.now index back in
        (if result then Nothing else h)
        ≡ pending_before element.Script h (class_at class) (get_or text.now index 0) }
{
    match back {
        ScriptPending::Less => matches!(class, Class::Solidus),
        ScriptPending::Name { letters } => {
            let name = pending(text, index - letters, index);
            let grows = may_be_name_of(Element::Script, pending(text, index - letters, index + 1));
            end_tag_goes_on(class, grows, is_name_of(Element::Script, name))
        }
        _ => false,
    }
}

/// The place in the element, in a script that has been scanned so.
pub fn script_place(script: ScriptScan) -> Place
    ensures { result ≡ place.Script (script_scan_place (script_scan_at script)) }
{
    Place::Script(js_step::place(script))
}

/// The place that is shown there; none within a template literal, nor behind a slash after `}`.
pub fn element_shown(script: ScriptScan) -> Option<Place>
    ensures { result
        ≡ option_map place.Script (script_scan_shown (script_scan_at script)) }
{
    match js_step::shown(script) {
        Some(js) => Some(Place::Script(js)),
        None => None,
    }
}
