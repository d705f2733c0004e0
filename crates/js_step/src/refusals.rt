ghost use Rattle.std.specs.Prelude.{◌≡◌, option_map};
ghost use Rattle.js_lexer.specs.Classes as classes;
ghost use Rattle.js_lexer.specs.Feeding as feeding;
ghost use Rattle.js_lexer.specs.Refusals as refusals;
ghost use Rattle.js_lexer.specs.Refusals.{first_script_cause};
ghost use Rattle.js_step.specs.ScriptScanViews.{script_cause_at, script_held_at, script_lexeme_at};
ghost use Rattle.js_step.specs.ScriptScanViews.{script_literals_at};
ghost use Rattle.js_step.specs.ScriptScanViews.{script_scan_at};
ghost use Rattle.js_step.specs.ScriptScans.{script_first_goes_on, script_goes_on};
ghost use Rattle.js_step.specs.ScriptScans.{script_scan_error, script_senses_differ};
ghost use Rattle.js_step.specs.ScriptScans.{script_shared, script_tails_error, script_two_senses};

use crate::cause::{ScriptCause, caused};
use crate::literals::is_outside;
use crate::scan::{ScriptAt, ScriptHeld, ScriptLiterals, ScriptScan};
use crate::senses::{in_sense, one_sense, senses_differ, shared};
use crate::steps::is_taken_in_string;
use crate::{markup, white};
use js_lexer::{ScriptClass, Sense, class_of};
use place_core::{Code, JsTails};

// Whether it matters whether a character is white space.
pub fn tells_white_apart(at: ScriptAt) -> bool
    ensures { result ≡ feeding.tells_white_apart (script_lexeme_at at) }
{
    match at {
        ScriptAt::Code(_)
        | ScriptAt::Word(_)
        | ScriptAt::Number
        | ScriptAt::Pluses(_)
        | ScriptAt::Minuses(_)
        | ScriptAt::Slash(Sense::Div | Sense::Brace)
        | ScriptAt::Line(_) => true,
        _ => false,
    }
}

// Whether the first character goes on with what some path has ended in before the text.
fn goes_on(before: JsTails, star: bool, class: ScriptClass) -> bool
    ensures { result ≡ script_goes_on before star class }
{
    match class {
        ScriptClass::Letter | ScriptClass::Digit | ScriptClass::Dollar | ScriptClass::Backslash =>
            before.word || before.num,
        ScriptClass::Dot => before.num,
        ScriptClass::Plus => before.plus,
        ScriptClass::Minus | ScriptClass::GreaterThan => before.minus,
        ScriptClass::Solidus => before.lt || before.slash || star,
        ScriptClass::Asterisk => before.slash,
        ScriptClass::ExclamationMark => before.lt || before.hash,
        _ => false,
    }
}

// Whether the first character that a byte releases does.
fn first_goes_on(before: JsTails, star: bool, apart: bool, held: ScriptHeld, byte: u8) -> bool
    ensures { result ≡ script_first_goes_on before star
        (feeding.read_at apart (script_held_at held) (classes.class_of byte) byte) }
{
    match white::first_class(apart, held, byte) {
        Some(class) => goes_on(before, star, class),
        None => false,
    }
}

// The first character goes on with what some path has ended in.
fn behind_tails(scan: ScriptScan, byte: u8) -> Option<ScriptCause>
    ensures { result ≡ option_map script_cause_at
        (script_tails_error (script_scan_at scan) (classes.class_of byte) byte) }
{
    let apart = tells_white_apart(in_sense(one_sense(scan.senses), scan.at));
    if scan.trail.fresh && first_goes_on(scan.before, scan.star, apart, scan.held, byte) {
        return caused(
            Code::SplitToken,
            white::bytes(scan.held),
            white::bytes(scan.held),
        );
    }
    None
}

// A slash divides on one path, and begins a regular expression on another one.
fn on_two_senses(
    differ: bool,
    literals: ScriptLiterals,
    at: ScriptAt,
    class: ScriptClass,
) -> Option<ScriptCause>
    ensures { result ≡ option_map script_cause_at (script_two_senses differ
        (script_literals_at literals) (script_lexeme_at at) class) }
{
    match (at, class) {
        (ScriptAt::Slash(_), ScriptClass::Solidus | ScriptClass::Asterisk) => None,
        (ScriptAt::Slash(_), _) if differ && is_outside(literals) => caused(Code::SlashAmbig, 1, 1),
        _ => None,
    }
}

// A slash after `}` that begins no comment.
fn behind_slash(at: ScriptAt, class: ScriptClass) -> Option<ScriptCause>
    ensures { result ≡ option_map script_cause_at
        (refusals.slash_refusal (script_lexeme_at at) class) }
{
    match (at, class) {
        (ScriptAt::Slash(Sense::Brace), ScriptClass::Solidus | ScriptClass::Asterisk) => None,
        (ScriptAt::Slash(Sense::Brace), _) => caused(Code::SlashAmbig, 1, 1),
        _ => None,
    }
}

// The end of a line that no backslash takes.
fn unless_taken(taken: bool, class: ScriptClass) -> Option<ScriptCause>
    ensures { result ≡ option_map script_cause_at (refusals.unless_taken taken class) }
{
    match class {
        ScriptClass::LineEnd if !taken => caused(Code::BadString, 0, 0),
        _ => None,
    }
}

// The end of a line in a string or a regular expression.
fn at_line_end(at: ScriptAt, class: ScriptClass, byte: u8) -> Option<ScriptCause>
    ensures { result ≡ option_map script_cause_at
        (refusals.line_refusal (script_lexeme_at at) class byte) }
{
    match at {
        ScriptAt::InString(_, escape) => unless_taken(is_taken_in_string(escape, byte), class),
        ScriptAt::InRegexp(_, _) | ScriptAt::Slash(Sense::Re) => unless_taken(false, class),
        _ => None,
    }
}

// What HTML or an old browser reads in code.
fn in_markup(scan: ScriptScan, byte: u8) -> Option<ScriptCause>
    ensures { result ≡ option_map script_cause_at
        (refusals.markup_refusal (script_scan_at scan).state byte) }
{
    let next = markup::markup_after(false, scan.at, scan.trail.markup, byte);
    if markup::is_refused(next) {
        let read = markup::bytes(scan.trail.markup);
        return caused(Code::HtmlInScript, read, read);
    }
    None
}

// What HTML reads in the code of a template literal of an element.
fn in_inner_markup(element: bool, scan: ScriptScan, byte: u8) -> Option<ScriptCause>
    ensures { result ≡ option_map script_cause_at (refusals.inner_markup_refusal element
        (script_scan_at scan).state byte) }
{
    let next = markup::markup_after(true, scan.at, scan.trail.markup, byte);
    if element && markup::is_refused_inside(next) {
        return caused(
            Code::HtmlInScript,
            markup::bytes(scan.trail.markup),
            scan.trail.literal,
        );
    }
    None
}

// The end of a line, or what HTML reads in code.
fn in_line_or_markup(scan: ScriptScan, class: ScriptClass, byte: u8) -> Option<ScriptCause>
    ensures { result ≡ option_map script_cause_at (first_script_cause
        (refusals.line_refusal (script_lexeme_at scan.at) class byte)
        (refusals.markup_refusal (script_scan_at scan).state byte)) }
{
    match at_line_end(scan.at, class, byte) {
        None => in_markup(scan, byte),
        refused => refused,
    }
}

// Outside of template literals.
fn in_token(scan: ScriptScan, class: ScriptClass, byte: u8) -> Option<ScriptCause>
    ensures { result ≡ option_map script_cause_at (first_script_cause
        (refusals.slash_refusal (script_lexeme_at scan.at) class) (first_script_cause
        (refusals.line_refusal (script_lexeme_at scan.at) class byte)
        (refusals.markup_refusal (script_scan_at scan).state byte))) }
{
    match behind_slash(scan.at, class) {
        None => in_line_or_markup(scan, class, byte),
        refused => refused,
    }
}

// What the state that the paths share refuses.
fn on_all(element: bool, scan: ScriptScan, class: ScriptClass, byte: u8) -> Option<ScriptCause>
    ensures { result ≡ option_map script_cause_at (refusals.refusal_outside
        (script_literals_at scan.literals) element (script_scan_at scan).state class byte) }
{
    if is_outside(scan.literals) {
        in_token(scan, class, byte)
    } else {
        in_inner_markup(element, scan, byte)
    }
}

// A slash with two senses, or what the state that the paths share refuses.
fn on_some(element: bool, scan: ScriptScan, class: ScriptClass, byte: u8) -> Option<ScriptCause>
    ensures { result ≡ option_map script_cause_at (first_script_cause
        (script_two_senses (script_senses_differ scan.senses) (script_literals_at scan.literals)
        (script_lexeme_at scan.at) class)
        (refusals.refusal_outside (script_literals_at scan.literals) element
        (script_shared (script_scan_at scan)) class byte)) }
{
    match on_two_senses(senses_differ(scan.senses), scan.literals, scan.at, class) {
        None => on_all(element, shared(scan), class, byte),
        refused => refused,
    }
}

/// Why a byte of text is refused, where it is. `element` says whether the script is an element's.
pub fn refused(element: bool, scan: ScriptScan, byte: u8) -> Option<ScriptCause>
    ensures { result ≡ option_map script_cause_at
        (script_scan_error element (script_scan_at scan) byte) }
{
    match behind_tails(scan, byte) {
        None => on_some(element, scan, class_of(byte), byte),
        refused => refused,
    }
}
