// What is refused in the element `script`, on all paths together. Each byte stands at its own place, so a cause is known there at which it
// stands so many bytes before the one at hand.
ghost use Rattle.std.specs.Prelude.{◌≡◌, ◌+◌, ◌^◌, ◌<◌, ◌≤◌, ◌∷◌, ◌++◌, ℕ, List, [], Option, IfSome, get_or, length, option_map};
ghost use Rattle.js_lexer.specs.Refusals.{Cause as SpecCause};
ghost use Rattle.js_step.specs.ScriptScanViews.{script_cause_at, script_scan_at};
ghost use Rattle.place_core.specs.declared.element.Element.TheVariants as element;
ghost use Rattle.place_core.specs.page.Contents.{Reads, pending_bytes};
ghost use Rattle.place_core.specs.place.Errors.{read_error, script_cause_back, script_content_cut_error, script_content_error, step_error};
ghost use Rattle.html_scan.specs.ClassViews.{class_at};
ghost use Rattle.html_scan.specs.ScanViews.{cause_at, pending_length, script_pending_at, script_reach};
ghost use Rattle.html_scan.specs.Scans.{all_element_scripts};

use crate::cause::Cause;
use crate::class::Class;
use crate::script_elements::{behind_pending, letters_of, may_end, opening};
use crate::script_pending::ScriptPending;
use crate::script_steps::{ScriptStep, script_step};
use crate::scripts::{after_byte, after_bytes};
use js_step::{ScriptCause, ScriptScan};

/// Why a byte is refused, behind what is pending back.
pub fn refused_in_element(
    text: &[u8],
    index: usize,
    class: Class,
    script: ScriptScan,
    back: ScriptPending,
) -> Option<Cause>
    requires inside { index < length text.now }
    requires pending { script_reach script + pending_length back ≤ index }
    ensures error { cause_at result ≡ script_content_error all_element_scripts element.Script
        (script_scan_at script) (script_pending_at text.now index back) (class_at class)
        (get_or text.now index 0) }
    ensures bound { IfSome result (λ cause. (cause.back ≤ index) × (cause.shown ≤ index)) }
{
    match script_step(text, index, class, may_end(script), back) {
        ScriptStep::Holds(held) => of_held(script, held),
        ScriptStep::Releases => of_last(text, index, script, back, b'<'),
        ScriptStep::Reads => of_last(text, index, script, back, text[index]),
        ScriptStep::Ends { letters } => at_end_tag(script, letters),
    }
}

/// Why the end of a text is refused, behind what is pending back.
pub fn refused_at_cut(text: &[u8], script: ScriptScan, back: ScriptPending) -> Option<Cause>
    requires pending { script_reach script + pending_length back ≤ length text.now }
    ensures error { cause_at result ≡ script_content_cut_error all_element_scripts
        (script_scan_at script) (script_pending_at text.now (length text.now) back) }
    ensures bound { IfSome result (λ cause.
        (cause.back ≤ length text.now) × (cause.shown ≤ length text.now)) }
{
    match of_pending(text, text.len(), script, back) {
        Some(cause) => Some(cause),
        None => at_cut(behind_pending(text, text.len(), script, back)),
    }
}

// Why the script refuses a byte that is pending: a `<`.
fn of_held(script: ScriptScan, held: ScriptPending) -> Option<Cause>
    requires room { script_reach script < 2 ^ 64 }
    ensures error { (text : List ℕ) (k : ℕ) → cause_at result ≡ step_error all_element_scripts
        (script_scan_at script) (Reads [] (script_pending_at text k held)) }
    ensures bound { IfSome result (λ cause.
        (cause.back ≤ script_reach script) × (cause.shown ≤ script_reach script)) }
{
    match held {
        ScriptPending::Less => of_byte(script, b'<', 0),
        _ => None,
    }
}

// Why what is pending back is refused, or the byte at hand, which the script reads behind it.
fn of_last(
    text: &[u8],
    index: usize,
    script: ScriptScan,
    back: ScriptPending,
    byte: u8,
) -> Option<Cause>
    requires inside { index ≤ length text.now }
    requires pending { script_reach script + pending_length back ≤ index }
    ensures error { cause_at result ≡ read_error all_element_scripts (script_scan_at script)
        (pending_bytes (script_pending_at text.now index back) ++ byte ∷ []) 0 }
    ensures bound { IfSome result (λ cause. (cause.back ≤ index) × (cause.shown ≤ index)) }
{
    match back {
        ScriptPending::Nothing => of_byte(script, byte, 0),
        _ => match of_pending(text, index, script, back) {
            Some(cause) => Some(cause),
            None => of_byte(behind_pending(text, index, script, back), byte, 0),
        },
    }
}

// Why what is pending back is refused, where the script reads it.
fn of_pending(text: &[u8], index: usize, script: ScriptScan, back: ScriptPending) -> Option<Cause>
    requires inside { index ≤ length text.now }
    requires pending { script_reach script + pending_length back ≤ index }
    ensures error { cause_at result ≡ read_error all_element_scripts (script_scan_at script)
        (pending_bytes (script_pending_at text.now index back)) 1 }
    ensures bound { IfSome result (λ cause. (cause.back ≤ index) × (cause.shown ≤ index)) }
{
    match back {
        ScriptPending::Nothing => None,
        _ => {
            let opens = opening(back);
            let letters = letters_of(text, index, back);
            match of_bytes(script, opens, letters.len() + 1) {
                Some(cause) => Some(cause),
                None => of_bytes(after_bytes(script, opens), letters, 1),
            }
        }
    }
}

// Bytes that the script reads, behind the last of which so many stand up to the one at hand.
fn of_bytes(script: ScriptScan, bytes: &[u8], behind: usize) -> Option<Cause>
    requires begun { 1 ≤ behind }
    requires room { script_reach script + length bytes.now + behind < 2 ^ 64 }
    ensures error { cause_at result
        ≡ read_error all_element_scripts (script_scan_at script) bytes.now behind }
    ensures bound { IfSome result (λ cause.
        (cause.back < script_reach script + length bytes.now + behind)
        × (cause.shown < script_reach script + length bytes.now + behind)) }
{
    let mut fed = script;
    let mut left = bytes.len() + behind;
    for byte in bytes {
        left -= 1;
        match of_byte(fed, *byte, left) {
            Some(cause) => return Some(cause),
            None => fed = after_byte(fed, *byte),
        }
    }
    None
}

// A byte that stands so many bytes before the one at hand.
fn of_byte(script: ScriptScan, byte: u8, behind: usize) -> Option<Cause>
    requires room { script_reach script + behind < 2 ^ 64 }
    ensures error { cause_at result ≡ script_cause_back behind
        (all_element_scripts.refuses (script_scan_at script) byte) }
    ensures bound { IfSome result (λ cause. (cause.back ≤ script_reach script + behind)
        × (cause.shown ≤ script_reach script + behind)) }
{
    standing(behind, js_step::refused(true, script, byte))
}

// The end tag, with so many letters before the byte at hand.
fn at_end_tag(script: ScriptScan, letters: usize) -> Option<Cause>
    requires room { script_reach script + (letters + 2) < 2 ^ 64 }
    ensures error { cause_at result ≡ script_cause_back (letters + 2)
        (all_element_scripts.refuses_end (script_scan_at script)) }
    ensures bound { IfSome result (λ cause. (cause.back ≤ script_reach script + (letters + 2))
        × (cause.shown ≤ script_reach script + (letters + 2))) }
{
    standing(letters + 2, js_step::refused_at_end(script))
}

// The end of the text.
fn at_cut(script: ScriptScan) -> Option<Cause>
    requires room { script_reach script < 2 ^ 64 }
    ensures error { cause_at result ≡ script_cause_back 0
        (all_element_scripts.refuses_cut (script_scan_at script)) }
    ensures bound { IfSome result (λ cause.
        (cause.back ≤ script_reach script) × (cause.shown ≤ script_reach script)) }
{
    standing(0, js_step::refused_at_cut(script))
}

// A cause of the script that is known so many bytes before the one at hand.
fn standing(behind: usize, cause: Option<ScriptCause>) -> Option<Cause>
    requires room { IfSome cause (λ e. (e.back + behind < 2 ^ 64) × (e.shown + behind < 2 ^ 64)) }
    ensures error { (o : Option SpecCause) → cause ≡ option_map script_cause_at o
        → cause_at result ≡ script_cause_back behind o }
    ensures bound { (n : ℕ) → IfSome cause (λ e. (e.back ≤ n) × (e.shown ≤ n))
        → IfSome result (λ e. (e.back ≤ n + behind) × (e.shown ≤ n + behind)) }
{
    match cause {
        Some(cause) => Some(Cause {
            code: cause.code,
            back: cause.back as usize + behind,
            shown: cause.shown as usize + behind,
        }),
        None => None,
    }
}
