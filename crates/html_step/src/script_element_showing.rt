// What shows that a byte is refused in the element `script`, or one before it that was pending back, or the end that the end tag makes;
// and that the end of a text is.
ghost use Rattle.std.specs.Prelude.{◌≡◌, ◌+◌, ◌<◌, ◌≤◌, ◌∷◌, ◌++◌, [], get_or, length, option_map, true};
ghost use Rattle.js_step.specs.ScriptScans.{script_scan_cut_error, script_scan_end_error};
ghost use Rattle.js_step.specs.ScriptScanViews.{script_scan_at};
ghost use Rattle.place_core.specs.page.Contents.{pending_bytes};
ghost use Rattle.html_scan.specs.ClassViews.{class_at};
ghost use Rattle.html_scan.specs.ScanViews.{pending_length, script_pending_at, script_reach};
ghost use Rattle.html_scan.specs.Scans.{script_scan_step};
ghost use Rattle.html_step.specs.OriginViews.{evidence_at};
ghost use Rattle.html_step.specs.Origins.{ends_by_step, script_shows, script_step_shown, script_told_shown, step_asked};
ghost use Rattle.html_step.specs.ScriptShowing.{script_end_shows, script_fed_shown};

use crate::evidence::Evidence;
use crate::script_showing::{back, by_end, of_byte, of_bytes, of_cut};
use html_scan::{
    Class, ScriptPending, ScriptStep, after_script_bytes, behind_pending, letters_of, may_end,
    opening, script_step,
};
use js_step::ScriptScan;

/// At a byte.
pub fn at_byte(
    text: &[u8],
    index: usize,
    class: Class,
    script: ScriptScan,
    pending: ScriptPending,
) -> Option<Evidence>
    requires inside { index < length text.now }
    requires pending { script_reach script + pending_length pending ≤ index }
    ensures { option_map evidence_at result ≡ script_step_shown (script_scan_step
        (script_scan_at script) (script_pending_at text.now index pending) (class_at class)
        (get_or text.now index 0)) (script_scan_at script) }
{
    back(script, told(text, index, class, script, pending))
}

/// At the end of a text.
pub fn at_cut(text: &[u8], script: ScriptScan, pending: ScriptPending) -> Option<Evidence>
    requires pending { script_reach script + pending_length pending ≤ length text.now }
    ensures { option_map evidence_at result ≡ script_shows true script_scan_cut_error
        (pending_bytes (script_pending_at text.now (length text.now) pending))
        (script_scan_at script) }
{
    back(script, told_at_cut(text, script, pending))
}

fn told(
    text: &[u8],
    index: usize,
    class: Class,
    script: ScriptScan,
    pending: ScriptPending,
) -> Option<Evidence>
    requires inside { index < length text.now }
    requires pending { script_reach script + pending_length pending ≤ index }
    ensures { let n = script_scan_at script in let step = script_scan_step n
        (script_pending_at text.now index pending) (class_at class) (get_or text.now index 0)
        in option_map evidence_at result
        ≡ script_told_shown true (ends_by_step step) (step_asked step) n }
{
    match script_step(text, index, class, may_end(script), pending) {
        ScriptStep::Holds(ScriptPending::Less) => of_byte(true, script, b'<'),
        ScriptStep::Holds(_) => None,
        ScriptStep::Releases => of_last(text, index, script, pending, b'<'),
        ScriptStep::Reads => of_last(text, index, script, pending, text[index]),
        ScriptStep::Ends { .. } => of_end_tag(script),
    }
}

fn told_at_cut(text: &[u8], script: ScriptScan, pending: ScriptPending) -> Option<Evidence>
    requires pending { script_reach script + pending_length pending ≤ length text.now }
    ensures { option_map evidence_at result ≡ script_told_shown true script_scan_cut_error
        (pending_bytes (script_pending_at text.now (length text.now) pending))
        (script_scan_at script) }
{
    match of_pending(text, text.len(), script, pending) {
        Some(shown) => Some(shown),
        None => of_cut(behind_pending(text, text.len(), script, pending)),
    }
}

// What was pending back, and then a byte, which the script reads behind it.
fn of_last(
    text: &[u8],
    index: usize,
    script: ScriptScan,
    pending: ScriptPending,
    byte: u8,
) -> Option<Evidence>
    requires inside { index ≤ length text.now }
    requires pending { script_reach script + pending_length pending ≤ index }
    ensures { option_map evidence_at result ≡ script_fed_shown true
        (pending_bytes (script_pending_at text.now index pending) ++ byte ∷ [])
        (script_scan_at script) }
{
    match of_pending(text, index, script, pending) {
        Some(shown) => Some(shown),
        None => of_byte(true, behind_pending(text, index, script, pending), byte),
    }
}

// What was pending back.
fn of_pending(
    text: &[u8],
    index: usize,
    script: ScriptScan,
    pending: ScriptPending,
) -> Option<Evidence>
    requires inside { index ≤ length text.now }
    requires pending { script_reach script + pending_length pending ≤ index }
    ensures { option_map evidence_at result ≡ script_fed_shown true
        (pending_bytes (script_pending_at text.now index pending)) (script_scan_at script) }
{
    let opens = opening(pending);
    let letters = letters_of(text, index, pending);
    match of_bytes(true, script, opens) {
        Some(shown) => Some(shown),
        None => of_bytes(true, after_script_bytes(script, opens), letters),
    }
}

// The end that the end tag makes.
fn of_end_tag(script: ScriptScan) -> Option<Evidence>
    ensures { option_map evidence_at result ≡ script_end_shows
        (script_scan_end_error (script_scan_at script)) (script_scan_at script) }
{
    match js_step::refused_at_end(script) {
        Some(cause) => Some(by_end(script, cause.code)),
        None => None,
    }
}
