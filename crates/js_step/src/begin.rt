ghost use Rattle.std.specs.Prelude.{◌≡◌, []};
ghost use Rattle.js_step.specs.ScriptScanViews.{ScriptScanFits, ScriptTrailFits};
ghost use Rattle.js_step.specs.ScriptScanViews.{script_lexeme_at, script_scan_at, script_trail_at};
ghost use Rattle.js_step.specs.ScriptScans.{script_begun, script_begun_trail, script_scan_start};

use crate::scan::{
    NO_TAILS, ScriptAt, ScriptEscape, ScriptHeld, ScriptLiterals, ScriptMarkup, ScriptPart,
    ScriptScan, ScriptTrail, ScriptUnfinished,
};
use crate::senses::one_sense;
use place_core::{Js, JsTails, Senses};

// The trail at the beginning of a text.
fn begun_trail() -> ScriptTrail
    ensures fits { ScriptTrailFits 0 result }
    ensures trail { script_trail_at result ≡ script_begun_trail }
{
    ScriptTrail {
        fresh: true,
        markup: ScriptMarkup::None,
        escape: ScriptUnfinished::None,
        brace: 0,
        bracket: 0,
        literal: 0,
        lines: ScriptPart::None,
    }
}

// The beginning of a text in a lexeme.
fn begun(senses: Senses, before: JsTails, star: bool, at: ScriptAt) -> ScriptScan
    ensures fits { ScriptScanFits 0 result }
    ensures scan { script_scan_at result
        ≡ script_begun senses before star (script_lexeme_at at) [] }
{
    ScriptScan {
        senses,
        before,
        star,
        at,
        literals: ScriptLiterals {
            braces: [0; 16],
            free: 16,
        },
        held: ScriptHeld::None,
        trail: begun_trail(),
    }
}

// The set of one sense, that a slash divides.
const DIVIDES: Senses = Senses {
    re: false,
    div: true,
    brace: false,
};

/// Where a text begins at a place.
pub fn start(place: Js) -> ScriptScan
    ensures fits { ScriptScanFits 0 result }
    ensures scan { script_scan_at result ≡ script_scan_start place }
{
    match place {
        Js::Code(senses, before) => {
            begun(senses, before, false, ScriptAt::Code(one_sense(senses)))
        }
        Js::Dq => begun(
            DIVIDES,
            NO_TAILS,
            false,
            ScriptAt::InString(true, ScriptEscape::None),
        ),
        Js::Sq => begun(
            DIVIDES,
            NO_TAILS,
            false,
            ScriptAt::InString(false, ScriptEscape::None),
        ),
        Js::Regexp(slash) => begun(
            DIVIDES,
            JsTails { slash, ..NO_TAILS },
            false,
            ScriptAt::InRegexp(false, ScriptEscape::None),
        ),
        Js::Line(senses) => begun(senses, NO_TAILS, false, ScriptAt::Line(one_sense(senses))),
        Js::Block(senses, star) => begun(
            senses,
            NO_TAILS,
            star,
            ScriptAt::Block(one_sense(senses), false),
        ),
    }
}
