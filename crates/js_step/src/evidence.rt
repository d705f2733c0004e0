ghost use Rattle.std.specs.Prelude.{◌≡◌, option_map};
ghost use Rattle.js_lexer.specs.Classes as classes;
ghost use Rattle.js_lexer.specs.Feeding as feeding;
ghost use Rattle.js_step.specs.ScriptEvidence.{ScriptsClash, ScriptsShown, script_code_shows};
ghost use Rattle.js_step.specs.ScriptEvidence.{script_first_shows, script_evidence_at};
ghost use Rattle.js_step.specs.ScriptEvidence.{script_shown_by, script_slash_member};
ghost use Rattle.js_step.specs.ScriptEvidence.{script_split_shows, script_tail_shows};
ghost use Rattle.js_step.specs.ScriptScanViews.{script_held_at, script_lexeme_at, script_scan_at};
ghost use Rattle.js_step.specs.ScriptScans.{script_scan_error};

use crate::refusals::{refused, tells_white_apart};
use crate::scan::{ScriptAt, ScriptHeld, ScriptScan};
use crate::senses::{in_sense, one_sense};
use crate::white;
use js_lexer::ScriptClass;
use place_core::{Code, JsTails, Member};

/// What shows that a script is refused: a member, on whatever path bears it; or that a slash begins a regular expression on some paths and
/// divides on others.
#[derive(Clone, Copy)]
pub enum ScriptShown {
    One(Member),
    EitherSlash,
}

/// What is refused is refused on each path that bears some member, or a slash would be one thing on some paths and the other on others. A
/// theorem; the call does nothing at run time.
pub fn scripts_shown()
    ensures { ScriptsShown }
{}

/// Where a slash would be one thing on some paths and the other on others, a path on which it is not known what it would be is refused what
/// they are refused together; and where they differ behind a byte, they do so before it. A theorem; the call does nothing at run time.
pub fn scripts_clash()
    ensures { ScriptsClash }
{}

/// What shows that a byte is refused, if it is.
pub fn shown_at_byte(element: bool, scan: ScriptScan, byte: u8) -> Option<ScriptShown>
    ensures { option_map script_evidence_at result ≡ option_map
        (λ e. script_shown_by (script_scan_at scan) (script_split_shows (script_scan_at scan) byte)
        e.refusal) (script_scan_error element (script_scan_at scan) byte) }
{
    match refused(element, scan, byte) {
        None => None,
        Some(cause) => Some(shown_by(scan, split_shows(scan, byte), cause.code)),
    }
}

/// What shows a refusal of this code; `split` shows that a token is split.
pub fn shown_by(scan: ScriptScan, split: Member, code: Code) -> ScriptShown
    ensures { script_evidence_at result ≡ script_code_shows (script_scan_at scan) split code }
{
    match code {
        Code::SplitToken => ScriptShown::One(split),
        Code::SlashAmbig if scan.senses.brace => ScriptShown::One(Member::SenseBrace),
        Code::SlashAmbig => ScriptShown::EitherSlash,
        _ => ScriptShown::One(Member::Whole),
    }
}

/// The member that shows that a byte goes on with what some path has ended in before the text.
pub fn split_shows(scan: ScriptScan, byte: u8) -> Member
    ensures { result ≡ script_split_shows (script_scan_at scan) byte }
{
    let apart = tells_white_apart(in_sense(one_sense(scan.senses), scan.at));
    first_shows(scan.before, scan.at, apart, scan.held, byte)
}

// By the first character that a byte releases.
fn first_shows(before: JsTails, at: ScriptAt, apart: bool, held: ScriptHeld, byte: u8) -> Member
    ensures { result ≡ script_first_shows before (script_lexeme_at at)
        (feeding.read_at apart (script_held_at held) (classes.class_of byte) byte) }
{
    match white::first_class(apart, held, byte) {
        Some(class) => tail_shows(before, at, class),
        None => Member::Whole,
    }
}

fn tail_shows(before: JsTails, at: ScriptAt, class: ScriptClass) -> Member
    ensures { result ≡ script_tail_shows before (script_lexeme_at at) class }
{
    match class {
        ScriptClass::Letter | ScriptClass::Digit | ScriptClass::Dollar | ScriptClass::Backslash
            if before.word => Member::JsWord,
        ScriptClass::Letter
        | ScriptClass::Digit
        | ScriptClass::Dollar
        | ScriptClass::Backslash
        | ScriptClass::Dot => Member::JsNum,
        ScriptClass::Plus => Member::JsPlus,
        ScriptClass::Minus | ScriptClass::GreaterThan => Member::JsMinus,
        ScriptClass::Solidus | ScriptClass::ExclamationMark if before.lt => Member::JsLt,
        ScriptClass::Solidus if !before.slash => Member::JsStar,
        ScriptClass::Solidus | ScriptClass::Asterisk => slash_member(at),
        ScriptClass::ExclamationMark => Member::JsHash,
        _ => Member::Whole,
    }
}

// A slash that some path has ended in: in a regular expression the one that begins it.
fn slash_member(at: ScriptAt) -> Member
    ensures { result ≡ script_slash_member (script_lexeme_at at) }
{
    match at {
        ScriptAt::InRegexp(_, _) => Member::RegexpSlash,
        _ => Member::JsSlash,
    }
}
