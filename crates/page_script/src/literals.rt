ghost use Rattle.std.specs.Prelude.{List, ◌≡◌, ◌+◌, length, nat_le, suc, ℕ};
ghost use Rattle.js_lexer.specs.Steps as steps;
ghost use Rattle.js_lexer.specs.Trails.{is_empty};
ghost use Rattle.page_script.specs.ReadViews.{most_script_bytes};
ghost use Rattle.page_script.specs.ReadViews.{BracesFit, literals_at};
ghost use Rattle.page_script.specs.ReadViews.{read_point_at};

use crate::point::{ReadAt, ReadEscape, ReadLiterals, ReadPoint};
use js_lexer::Sense;

/// Whether no template literal is open.
#[tactic(auto, using(crate::proofs::OpenLiterals::literal_rules))]
pub fn is_outside(literals: ReadLiterals) -> bool
    ensures { result ≡ is_empty (literals_at literals) }
{
    literals.free >= 16
}

// A backquote in code, or one too many.
#[tactic(auto, using(crate::proofs::OpenLiterals::literal_rules))]
pub fn opened(literals: ReadLiterals) -> ReadPoint
    ensures fits { (k : ℕ) → BracesFit k literals → BracesFit k result.literals }
    ensures point { (w : List ℕ) → read_point_at w result ≡ steps.literal_opens
        (nat_le (suc (length (literals_at literals))) steps.max_literals)
        (literals_at literals) }
{
    if literals.free == 0 {
        return ReadPoint {
            literals,
            at: ReadAt::TooDeep,
        };
    }
    let free = if literals.free < 16 {
        literals.free - 1
    } else {
        15
    };
    let mut braces = literals.braces;
    braces[free] = 0;
    ReadPoint {
        literals: ReadLiterals { braces, free },
        at: ReadAt::InTemplate(ReadEscape::None, false),
    }
}

// A literal ends at its backquote.
#[tactic(auto, using(crate::proofs::OpenLiterals::literal_rules))]
pub fn ended(literals: ReadLiterals) -> ReadPoint
    ensures fits { (k : ℕ) → BracesFit k literals → BracesFit k result.literals }
    ensures point { (w : List ℕ) → read_point_at w result ≡ steps.literal_ends (literals_at literals) }
{
    let free = if literals.free < 16 {
        literals.free + 1
    } else {
        literals.free
    };
    let braces = literals.braces;
    ReadPoint {
        literals: ReadLiterals { braces, free },
        at: ReadAt::Code(Sense::Div),
    }
}

// A brace opens in the code of the innermost literal.
#[tactic(auto, using(crate::proofs::OpenLiterals::literal_rules))]
pub fn with_brace(literals: ReadLiterals) -> ReadLiterals
    requires { BracesFit most_script_bytes literals }
    ensures fits { (k : ℕ) → BracesFit k literals → BracesFit (k + 1) result }
    ensures literals { literals_at result ≡ steps.brace_opens (literals_at literals) }
{
    if literals.free >= 16 {
        return literals;
    }
    let mut braces = literals.braces;
    braces[literals.free] = literals.braces[literals.free] + 1;
    ReadLiterals {
        braces,
        free: literals.free,
    }
}

// A brace closes in the code of the innermost literal, or ends that code.
#[tactic(auto, using(crate::proofs::OpenLiterals::literal_rules))]
pub fn closed(literals: ReadLiterals) -> ReadPoint
    ensures fits { (k : ℕ) → BracesFit k literals → BracesFit k result.literals }
    ensures point { (w : List ℕ) → read_point_at w result ≡ steps.brace_closes (literals_at literals) }
{
    if literals.free >= 16 {
        return ReadPoint {
            literals,
            at: ReadAt::Code(Sense::Brace),
        };
    }
    let open = literals.braces[literals.free];
    if open == 0 {
        return ReadPoint {
            literals,
            at: ReadAt::InTemplate(ReadEscape::None, false),
        };
    }
    let mut braces = literals.braces;
    braces[literals.free] = open - 1;
    ReadPoint {
        literals: ReadLiterals {
            braces,
            free: literals.free,
        },
        at: ReadAt::Code(Sense::Brace),
    }
}
