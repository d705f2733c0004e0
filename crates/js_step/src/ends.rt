ghost use Rattle.std.specs.Prelude.{◌≡◌, None, if◌then◌else◌, option_map};
ghost use Rattle.js_lexer.specs.Refusals as refusals;
ghost use Rattle.js_lexer.specs.Refusals.{SlashAmbig, cause, first_script_cause};
ghost use Rattle.js_step.specs.ScriptScanViews.{script_cause_at, script_lexeme_at};
ghost use Rattle.js_step.specs.ScriptScanViews.{script_literals_at, script_scan_at};
ghost use Rattle.js_step.specs.ScriptScanViews.{script_trail_at};
ghost use Rattle.js_step.specs.ScriptScans.{script_scan_cut_error, script_scan_end_error};
ghost use Rattle.js_step.specs.ScriptScans.{script_senses_differ, script_shared, script_slash_error};

use crate::cause::{ScriptCause, caused};
use crate::literals::is_outside;
use crate::scan::{ScriptAt, ScriptHeld, ScriptLiterals, ScriptScan, ScriptTrail};
use crate::senses::{in_sense, one_sense, senses_differ};
use crate::{escapes, markup};
use js_lexer::Sense;
use place_core::Code;

// In an escape.
fn in_escape(trail: ScriptTrail) -> Option<ScriptCause>
    ensures { result
        ≡ option_map script_cause_at (refusals.escape_refusal (script_trail_at trail)) }
{
    if trail.brace > 0 {
        return caused(Code::PartialEscape, 0, trail.brace);
    }
    if escapes::is_closed(trail.escape) {
        return None;
    }
    caused(Code::PartialEscape, 0, escapes::bytes(trail.escape))
}

// In what may go on as a word of HTML.
fn in_markup(trail: ScriptTrail) -> Option<ScriptCause>
    ensures { result
        ≡ option_map script_cause_at (refusals.cut_markup_refusal (script_trail_at trail)) }
{
    if markup::is_cut(trail.markup) {
        caused(Code::SplitToken, 0, markup::bytes(trail.markup))
    } else {
        None
    }
}

// In a lexeme, outside of template literals.
fn in_lexeme(at: ScriptAt, trail: ScriptTrail) -> Option<ScriptCause>
    ensures { result ≡ option_map script_cause_at
        (refusals.cut_refusal_at (script_lexeme_at at) (script_trail_at trail)) }
{
    match at {
        ScriptAt::Slash(Sense::Brace) => caused(Code::SlashAmbig, 1, 1),
        ScriptAt::InString(_, _) => in_escape(trail),
        ScriptAt::InRegexp(true, _) => caused(Code::PartialCharset, 0, trail.bracket),
        ScriptAt::InRegexp(false, _) => match in_escape(trail) {
            None => in_markup(trail),
            refused => refused,
        },
        _ => in_markup(trail),
    }
}

// Behind a slash that divides on one path and begins a regular expression on another one.
fn on_two_senses(differ: bool, literals: ScriptLiterals, at: ScriptAt) -> bool
    ensures { (if result then cause SlashAmbig 1 1 else None)
        ≡ script_slash_error differ (script_literals_at literals) (script_lexeme_at at) }
{
    match at {
        ScriptAt::Slash(_) => differ && is_outside(literals),
        _ => false,
    }
}

// Between characters.
fn in_whole_text(scan: ScriptScan) -> Option<ScriptCause>
    ensures { result ≡ option_map script_cause_at (first_script_cause
        (script_slash_error (script_senses_differ scan.senses)
        (script_literals_at scan.literals) (script_lexeme_at scan.at))
        (refusals.whole_cut_refusal (script_literals_at scan.literals)
        (script_shared (script_scan_at scan)).at (script_trail_at scan.trail))) }
{
    if on_two_senses(senses_differ(scan.senses), scan.literals, scan.at) {
        return caused(Code::SlashAmbig, 1, 1);
    }
    if is_outside(scan.literals) {
        in_lexeme(in_sense(one_sense(scan.senses), scan.at), scan.trail)
    } else {
        caused(Code::JSTemplate, 0, scan.trail.literal)
    }
}

/// Why the end of a node is refused, where it is.
pub fn refused_at_cut(scan: ScriptScan) -> Option<ScriptCause>
    ensures { result ≡ option_map script_cause_at (script_scan_cut_error (script_scan_at scan)) }
{
    match scan.held {
        ScriptHeld::None => in_whole_text(scan),
        ScriptHeld::One(_) => caused(Code::SplitToken, 0, 1),
        ScriptHeld::Two(_, _) => caused(Code::SplitToken, 0, 2),
    }
}

// The end of a value in a lexeme.
fn in_last_lexeme(literals: ScriptLiterals, at: ScriptAt, trail: ScriptTrail) -> Option<ScriptCause>
    ensures { result ≡ option_map script_cause_at (refusals.end_refusal_at
        (script_literals_at literals) (script_lexeme_at at) (script_trail_at trail)) }
{
    match at {
        ScriptAt::Slash(Sense::Brace) if is_outside(literals) => caused(Code::SlashAmbig, 1, 1),
        ScriptAt::TooDeep => caused(Code::JSTemplate, 0, trail.literal),
        _ => None,
    }
}

/// Why the end of a value is refused, where it is.
pub fn refused_at_end(scan: ScriptScan) -> Option<ScriptCause>
    ensures { result ≡ option_map script_cause_at (script_scan_end_error (script_scan_at scan)) }
{
    if on_two_senses(senses_differ(scan.senses), scan.literals, scan.at) {
        return caused(Code::SlashAmbig, 1, 1);
    }
    let at = in_sense(one_sense(scan.senses), scan.at);
    in_last_lexeme(scan.literals, at, scan.trail)
}
