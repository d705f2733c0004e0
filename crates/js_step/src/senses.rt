ghost use Rattle.std.specs.Prelude.{◌≡◌};
ghost use Rattle.js_step.specs.KeptWords.{kept_at};
ghost use Rattle.js_step.specs.ScriptScanViews.{script_lexeme_at, script_scan_at};
ghost use Rattle.js_step.specs.ScriptScans.{script_at_in, script_one_sense, script_sense_at};
ghost use Rattle.js_step.specs.ScriptScans.{script_senses_differ, script_shared};
ghost use Rattle.place_core.specs.place.LanguagePlaces.{both_senses};
ghost use Rattle.place_core.specs.place.ScriptParts.{script_senses};

use crate::scan::{ScriptAt, ScriptScan};
use crate::steps::sense_if_odd;
use crate::word;
use js_lexer::Sense;
use place_core::Senses;

// One sense of a set, for what the paths share.
pub fn one_sense(senses: Senses) -> Sense
    ensures { result ≡ script_one_sense senses }
{
    if senses.brace {
        Sense::Brace
    } else if senses.div {
        Sense::Div
    } else {
        Sense::Re
    }
}

// A lexeme in a sense. Of a word the code keeps no more than it may.
#[tactic(auto, using(crate::proofs::KeptScans::take_again))]
pub fn in_sense(sense: Sense, at: ScriptAt) -> ScriptAt
    ensures kept { kept_at (script_lexeme_at result) ≡ script_lexeme_at result }
    ensures at { script_lexeme_at result ≡ script_at_in sense (script_lexeme_at at) }
{
    match at {
        ScriptAt::Code(_) => ScriptAt::Code(sense),
        ScriptAt::Slash(_) => ScriptAt::Slash(sense),
        ScriptAt::Line(_) => ScriptAt::Line(sense),
        ScriptAt::Block(_, star) => ScriptAt::Block(sense, star),
        ScriptAt::Word(read) => ScriptAt::Word(read),
        _ => at,
    }
}

// Whether a slash divides on one path and begins a regular expression on another one.
pub fn senses_differ(senses: Senses) -> bool
    ensures { result ≡ script_senses_differ senses }
{
    senses.re && senses.div
}

// What a slash would be behind what has been read.
pub fn sense_at(at: ScriptAt) -> Sense
    ensures { result ≡ script_sense_at (script_lexeme_at at) }
{
    match at {
        ScriptAt::Code(sense)
        | ScriptAt::Slash(sense)
        | ScriptAt::Line(sense)
        | ScriptAt::Block(sense, _) => sense,
        ScriptAt::Word(read) => word::sense_behind(read),
        ScriptAt::Pluses(odd) | ScriptAt::Minuses(odd) => sense_if_odd(odd),
        _ => Sense::Div,
    }
}

// The set of one sense.
pub fn only(sense: Sense) -> Senses
    ensures { result ≡ script_senses sense }
{
    Senses {
        re: sense == Sense::Re,
        div: sense == Sense::Div,
        brace: sense == Sense::Brace,
    }
}

// The senses of both sets.
pub fn both(left: Senses, right: Senses) -> Senses
    ensures { result ≡ both_senses left right }
{
    Senses {
        re: left.re || right.re,
        div: left.div || right.div,
        brace: left.brace || right.brace,
    }
}

// What the paths share, with one of the senses.
pub fn shared(scan: ScriptScan) -> ScriptScan
    ensures literals { result.literals ≡ scan.literals }
    ensures state { (script_scan_at result).state ≡ script_shared (script_scan_at scan) }
{
    ScriptScan {
        at: in_sense(one_sense(scan.senses), scan.at),
        ..scan
    }
}
