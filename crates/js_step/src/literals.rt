ghost use Rattle.std.specs.Prelude.{◌≡◌, ◌+◌, length, nat_le, suc, ℕ};
ghost use Rattle.js_lexer.specs.Steps as steps;
ghost use Rattle.js_lexer.specs.Trails as trails;
ghost use Rattle.js_step.specs.ScriptScanViews.{most_bytes};
ghost use Rattle.js_step.specs.ScriptScanViews.{ScriptBracesFit, script_literals_at};
ghost use Rattle.js_step.specs.ScriptScanViews.{script_point_at};

use crate::point::ScriptPoint;
use crate::scan::{ScriptAt, ScriptEscape, ScriptLiterals};
use js_lexer::Sense;

/// Whether no template literal is open.
#[tactic(auto, using(crate::proofs::OpenLiterals::literal_rules))]
pub fn is_outside(literals: ScriptLiterals) -> bool
    ensures { result ≡ trails.is_empty (script_literals_at literals) }
{
    literals.free >= 16
}

// A backquote in code, or one too many.
#[tactic(auto, using(crate::proofs::OpenLiterals::literal_rules))]
pub fn opened(literals: ScriptLiterals) -> ScriptPoint
    ensures fits { (k : ℕ) → ScriptBracesFit k literals → ScriptBracesFit k result.literals }
    ensures point { script_point_at result ≡ steps.literal_opens
        (nat_le (suc (length (script_literals_at literals))) steps.max_literals)
        (script_literals_at literals) }
{
    if literals.free == 0 {
        return ScriptPoint {
            literals,
            at: ScriptAt::TooDeep,
        };
    }
    let free = if literals.free < 16 {
        literals.free - 1
    } else {
        15
    };
    let mut braces = literals.braces;
    braces[free] = 0;
    ScriptPoint {
        literals: ScriptLiterals { braces, free },
        at: ScriptAt::InTemplate(ScriptEscape::None, false),
    }
}

// A literal ends at its backquote.
#[tactic(auto, using(crate::proofs::OpenLiterals::literal_rules))]
pub fn ended(literals: ScriptLiterals) -> ScriptPoint
    ensures fits { (k : ℕ) → ScriptBracesFit k literals → ScriptBracesFit k result.literals }
    ensures point { script_point_at result ≡ steps.literal_ends (script_literals_at literals) }
{
    let free = if literals.free < 16 {
        literals.free + 1
    } else {
        literals.free
    };
    let braces = literals.braces;
    ScriptPoint {
        literals: ScriptLiterals { braces, free },
        at: ScriptAt::Code(Sense::Div),
    }
}

// A brace opens in the code of the innermost literal.
#[tactic(auto, using(crate::proofs::OpenLiterals::literal_rules))]
pub fn with_brace(literals: ScriptLiterals) -> ScriptLiterals
    requires { ScriptBracesFit most_bytes literals }
    ensures fits { (k : ℕ) → ScriptBracesFit k literals → ScriptBracesFit (k + 1) result }
    ensures literals { script_literals_at result ≡ steps.brace_opens (script_literals_at literals) }
{
    if literals.free >= 16 {
        return literals;
    }
    let mut braces = literals.braces;
    braces[literals.free] = literals.braces[literals.free] + 1;
    ScriptLiterals {
        braces,
        free: literals.free,
    }
}

// A brace closes in the code of the innermost literal, or ends that code.
#[tactic(auto, using(crate::proofs::OpenLiterals::literal_rules))]
pub fn closed(literals: ScriptLiterals) -> ScriptPoint
    ensures fits { (k : ℕ) → ScriptBracesFit k literals → ScriptBracesFit k result.literals }
    ensures point { script_point_at result ≡ steps.brace_closes (script_literals_at literals) }
{
    if literals.free >= 16 {
        return ScriptPoint {
            literals,
            at: ScriptAt::Code(Sense::Brace),
        };
    }
    let open = literals.braces[literals.free];
    if open == 0 {
        return ScriptPoint {
            literals,
            at: ScriptAt::InTemplate(ScriptEscape::None, false),
        };
    }
    let mut braces = literals.braces;
    braces[literals.free] = open - 1;
    ScriptPoint {
        literals: ScriptLiterals {
            braces,
            free: literals.free,
        },
        at: ScriptAt::Code(Sense::Brace),
    }
}
