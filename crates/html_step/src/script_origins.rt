// Which member before the bytes that a script is fed a member behind them comes from.
ghost use Rattle.std.specs.Prelude.{◌≡◌, ◌<◌, ◌≤◌, get_or, length};
ghost use Rattle.js_step.specs.ScriptOrigins.{script_but_slash, script_senses_at, script_set_has, script_tails_at};
ghost use Rattle.js_step.specs.ScriptScanViews.{script_lexeme_at, script_scan_at};
ghost use Rattle.place_core.specs.place.LanguagePlaces.{js_star_has, js_tails_have, regexp_has};
ghost use Rattle.place_core.specs.place.LanguagePlaces as languages;
ghost use Rattle.html_scan.specs.ClassViews.{class_at};
ghost use Rattle.html_scan.specs.ScanViews.{pending_length, script_pending_at};
ghost use Rattle.html_scan.specs.Scans.{script_scan_step};
ghost use Rattle.html_step.specs.Origins as spec;

use crate::origins::typed_origin;
use html_scan::{Class, ScriptPending, ScriptStep, may_end, script_step};
use js_step::{ScriptAt, ScriptScan};
use place_core::{JsTails, Member, Senses};

/// The member before the bytes that a script is fed from which one behind them, or of the place where the text ends, comes.
pub fn script_origin(script: ScriptScan, member: Member) -> Member
    ensures { result ≡ spec.script_origin (script_scan_at script) member }
{
    if has(script, member) {
        return member;
    }
    typed_origin(member)
}

/// In the element: before a byte, behind what the script is fed. Behind the end tag all is so on each path.
pub fn step_origin(
    text: &[u8],
    index: usize,
    class: Class,
    script: ScriptScan,
    back: ScriptPending,
    member: Member,
) -> Member
    requires inside { index < length text.now }
    requires pending { pending_length back ≤ index }
    ensures { result ≡ spec.step_origin (script_scan_step (script_scan_at script)
        (script_pending_at text.now index back) (class_at class) (get_or text.now index 0))
        member }
{
    match script_step(text, index, class, may_end(script), back) {
        ScriptStep::Ends { .. } => Member::Whole,
        _ => member,
    }
}

// Whether a scan state has a member in what it keeps as sets.
fn has(script: ScriptScan, member: Member) -> bool
    ensures { result ≡ script_set_has (script_scan_at script) member }
{
    senses_at(script.senses, script.at, member)
        || (tails_at(script.before, script.at, member) || star_has(script.star, member))
}

fn senses_at(senses: Senses, at: ScriptAt, member: Member) -> bool
    ensures { result ≡ script_senses_at senses (script_lexeme_at at) member }
{
    match at {
        ScriptAt::InString(_, _) | ScriptAt::InRegexp(_, _) => false,
        _ => senses_have(senses, member),
    }
}

// In a regular expression a slash in which a text ended is the one that begins it.
fn tails_at(tails: JsTails, at: ScriptAt, member: Member) -> bool
    ensures { result ≡ script_tails_at tails (script_lexeme_at at) member }
{
    match at {
        ScriptAt::InRegexp(_, _) => {
            slash_has(tails.slash, member) || tails_have(but_slash(tails), member)
        }
        ScriptAt::Slash(_) => slash_has(tails.slash, member) || tails_have(tails, member),
        _ => tails_have(tails, member),
    }
}

fn but_slash(tails: JsTails) -> JsTails
    ensures { result ≡ script_but_slash tails }
{
    JsTails {
        slash: false,
        ..tails
    }
}

fn senses_have(senses: Senses, member: Member) -> bool
    ensures { result ≡ languages.senses_have senses member }
{
    match member {
        Member::SenseRe => senses.re,
        Member::SenseDiv => senses.div,
        Member::SenseBrace => senses.brace,
        _ => false,
    }
}

fn tails_have(tails: JsTails, member: Member) -> bool
    ensures { result ≡ js_tails_have tails member }
{
    match member {
        Member::JsWord => tails.word,
        Member::JsNum => tails.num,
        Member::JsLt => tails.lt,
        Member::JsSlash => tails.slash,
        Member::JsPlus => tails.plus,
        Member::JsMinus => tails.minus,
        Member::JsHash => tails.hash,
        _ => false,
    }
}

fn slash_has(slash: bool, member: Member) -> bool
    ensures { result ≡ regexp_has slash member }
{
    match member {
        Member::RegexpSlash => slash,
        _ => false,
    }
}

fn star_has(star: bool, member: Member) -> bool
    ensures { result ≡ js_star_has star member }
{
    match member {
        Member::JsStar => star,
        _ => false,
    }
}
