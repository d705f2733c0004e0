ghost use Rattle.std.specs.Prelude.{◌≡◌, ◌+◌, ◌++◌, ◌∷◌, [], ℕ};
ghost use Rattle.js_lexer.specs.Classes as classes;
ghost use Rattle.js_lexer.specs.Feeding as feeding;
ghost use Rattle.js_lexer.specs.States.{ScriptPoint as Point};
ghost use Rattle.js_lexer.specs.Steps as steps;
ghost use Rattle.js_lexer.specs.WhiteSpace as spaces;
ghost use Rattle.js_step.specs.KeptWords.{kept_point};
ghost use Rattle.js_step.specs.ScriptScanViews.{most_bytes};
ghost use Rattle.js_step.specs.ScriptScanViews.{ScriptBracesFit, braces_opened, script_held_at};
ghost use Rattle.js_step.specs.ScriptScanViews.{script_point_at};

use crate::point::ScriptPoint;
use crate::scan::ScriptHeld;
use crate::steps::next_point;
use crate::white::{PastAscii, begins_white, past_ascii};
use js_lexer::{ScriptClass, class_of};

// Where a byte of a class leads, of each point that the code's stands for.
fn stepped(from: ScriptPoint, class: ScriptClass, byte: u8) -> ScriptPoint
    requires { ScriptBracesFit most_bytes from.literals }
    ensures fits { (k : ℕ) → ScriptBracesFit k from.literals
        → ScriptBracesFit (k + 1) result.literals }
    ensures keeps { (k : ℕ) → braces_opened class ≡ 0 → ScriptBracesFit k from.literals
        → ScriptBracesFit k result.literals }
    ensures point { (p : Point) → kept_point p ≡ script_point_at from
        → kept_point (steps.script_next p.literals p.at class byte) ≡ script_point_at result }
{
    next_point(from, class, byte)
}

// Where those that are held back lead, as letters.
fn letters(from: ScriptPoint, held: ScriptHeld) -> ScriptPoint
    requires { ScriptBracesFit most_bytes from.literals }
    ensures fits { (k : ℕ) → ScriptBracesFit k from.literals → ScriptBracesFit k result.literals }
    ensures point { (p : Point) → kept_point p ≡ script_point_at from → kept_point
        (feeding.points (spaces.classed_as ScriptClass.Letter (script_held_at held)) p)
        ≡ script_point_at result }
{
    match held {
        ScriptHeld::None => from,
        ScriptHeld::One(a) => stepped(from, ScriptClass::Letter, a),
        ScriptHeld::Two(a, b) => {
            let behind = stepped(from, ScriptClass::Letter, a);
            stepped(behind, ScriptClass::Letter, b)
        }
    }
}

// Where they lead, and the byte at hand by its own class.
fn letters_then(from: ScriptPoint, held: ScriptHeld, byte: u8) -> ScriptPoint
    requires { ScriptBracesFit most_bytes from.literals }
    ensures fits { (k : ℕ) → ScriptBracesFit k from.literals
        → ScriptBracesFit (k + 1) result.literals }
    ensures point { (p : Point) → kept_point p ≡ script_point_at from → kept_point
        (feeding.points (spaces.classed_as ScriptClass.Letter (script_held_at held)
        ++ spaces.classed (classes.class_of byte) byte ∷ []) p) ≡ script_point_at result }
{
    let behind = letters(from, held);
    stepped(behind, class_of(byte), byte)
}

// Where they lead with the byte at hand, as white space.
fn white(from: ScriptPoint, held: ScriptHeld, class: ScriptClass, byte: u8) -> ScriptPoint
    requires class { braces_opened class ≡ 0 }
    requires fits { ScriptBracesFit most_bytes from.literals }
    ensures fits { (k : ℕ) → ScriptBracesFit k from.literals → ScriptBracesFit k result.literals }
    ensures point { (p : Point) → kept_point p ≡ script_point_at from → kept_point
        (feeding.points (spaces.classed_as class (script_held_at held ++ byte ∷ [])) p)
        ≡ script_point_at result }
{
    match held {
        ScriptHeld::None => stepped(from, class, byte),
        ScriptHeld::One(a) => {
            let behind = stepped(from, class, a);
            stepped(behind, class, byte)
        }
        ScriptHeld::Two(a, b) => {
            let first = stepped(from, class, a);
            let second = stepped(first, class, b);
            stepped(second, class, byte)
        }
    }
}

// Where they lead as letters, with the byte at hand, if it begins no white space itself.
fn others(from: ScriptPoint, held: ScriptHeld, byte: u8) -> ScriptPoint
    requires { ScriptBracesFit most_bytes from.literals }
    ensures fits { (k : ℕ) → ScriptBracesFit k from.literals
        → ScriptBracesFit (k + 1) result.literals }
    ensures point { (p : Point) → kept_point p ≡ script_point_at from → kept_point
        (feeding.points (spaces.released_past_ascii spaces.IsOther (script_held_at held) byte) p)
        ≡ script_point_at result }
{
    if begins_white(byte) {
        letters(from, held)
    } else {
        letters_then(from, held, byte)
    }
}

// Where a byte past ASCII leads.
fn past(from: ScriptPoint, held: ScriptHeld, byte: u8) -> ScriptPoint
    requires { ScriptBracesFit most_bytes from.literals }
    ensures fits { (k : ℕ) → ScriptBracesFit k from.literals
        → ScriptBracesFit (k + 1) result.literals }
    ensures point { (p : Point) → kept_point p ≡ script_point_at from → kept_point
        (feeding.points (spaces.released_past_ascii
        (spaces.past_ascii (script_held_at held ++ byte ∷ [])) (script_held_at held) byte) p)
        ≡ script_point_at result }
{
    match past_ascii(held, byte) {
        PastAscii::Space => white(from, held, ScriptClass::Space, byte),
        PastAscii::Separator => white(from, held, ScriptClass::LineEnd, byte),
        PastAscii::BeginsWhite => from,
        PastAscii::Other => others(from, held, byte),
    }
}

// Where a byte leads, and those that are held back before it.
#[tactic(auto, unfolding(js_lexer::specs::WhiteSpace::released))]
fn released(from: ScriptPoint, held: ScriptHeld, byte: u8) -> ScriptPoint
    requires { ScriptBracesFit most_bytes from.literals }
    ensures fits { (k : ℕ) → ScriptBracesFit k from.literals
        → ScriptBracesFit (k + 1) result.literals }
    ensures point { (p : Point) → kept_point p ≡ script_point_at from → kept_point
        (feeding.points (spaces.released (script_held_at held) byte) p) ≡ script_point_at result }
{
    if byte < 128 {
        letters_then(from, held, byte)
    } else {
        past(from, held, byte)
    }
}

// Where a byte leads; those that are held back count if it matters whether a character is white space (`apart`).
pub fn fed(from: ScriptPoint, apart: bool, held: ScriptHeld, byte: u8) -> ScriptPoint
    requires { ScriptBracesFit most_bytes from.literals }
    ensures fits { (k : ℕ) → ScriptBracesFit k from.literals
        → ScriptBracesFit (k + 1) result.literals }
    ensures point { (p : Point) → kept_point p ≡ script_point_at from → kept_point (feeding.points
        (feeding.read_at apart (script_held_at held) (classes.class_of byte) byte) p)
        ≡ script_point_at result }
{
    if apart {
        released(from, held, byte)
    } else {
        stepped(from, class_of(byte), byte)
    }
}
