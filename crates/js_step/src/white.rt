ghost use Rattle.std.specs.Prelude.{◌≡◌, ◌++◌, ◌∷◌, [], Some, length};
ghost use Rattle.js_lexer.specs.Classes as classes;
ghost use Rattle.js_lexer.specs.Feeding.{held_at, read_at};
ghost use Rattle.js_lexer.specs.WhiteSpace as spaces;
ghost use Rattle.js_step.specs.ScriptScanViews.{IsPastAscii, script_begins_white, script_first_class};
ghost use Rattle.js_step.specs.ScriptScanViews.{script_releases};
ghost use Rattle.js_step.specs.ScriptScanViews.{script_held_at, script_past_at};

use crate::scan::ScriptHeld;
use js_lexer::{ScriptClass, class_of};

/// What bytes past ASCII are: white space of the one kind or the other, the beginning of such a character, or neither.
#[derive(Clone, Copy)]
pub enum PastAscii {
    Space,
    Separator,
    BeginsWhite,
    Other,
}

// Whether a byte begins white space by itself.
#[tactic(auto, using(crate::proofs::WhiteBytes::white_rules))]
pub fn begins_white(byte: u8) -> bool
    ensures { script_begins_white result ≡ spaces.past_ascii (byte ∷ []) }
{
    if byte == 0xC2 {
        return true;
    }
    if byte == 0xE1 {
        return true;
    }
    if byte == 0xE2 {
        return true;
    }
    if byte == 0xE3 {
        return true;
    }
    if byte == 0xEF {
        return true;
    }
    false
}

// One byte.
fn alone(byte: u8) -> PastAscii
    ensures { script_past_at result ≡ spaces.past_ascii (byte ∷ []) }
{
    if begins_white(byte) {
        PastAscii::BeginsWhite
    } else {
        PastAscii::Other
    }
}

// Two bytes.
#[tactic(auto, using(crate::proofs::WhiteBytes::white_rules))]
fn two(first: u8, second: u8) -> PastAscii
    ensures { script_past_at result ≡ spaces.past_ascii (first ∷ second ∷ []) }
{
    if first == 0xC2 {
        return if second == 0xA0 {
            PastAscii::Space
        } else {
            PastAscii::Other
        };
    }
    if first == 0xE1 {
        return if second == 0x9A {
            PastAscii::BeginsWhite
        } else {
            PastAscii::Other
        };
    }
    if first == 0xE2 {
        if second == 0x80 {
            return PastAscii::BeginsWhite;
        }
        return if second == 0x81 {
            PastAscii::BeginsWhite
        } else {
            PastAscii::Other
        };
    }
    if first == 0xE3 {
        return if second == 0x80 {
            PastAscii::BeginsWhite
        } else {
            PastAscii::Other
        };
    }
    if first == 0xEF {
        return if second == 0xBB {
            PastAscii::BeginsWhite
        } else {
            PastAscii::Other
        };
    }
    PastAscii::Other
}

// Three bytes, of which the first two are those of general punctuation.
#[tactic(auto, using(crate::proofs::WhiteBytes::white_rules))]
fn punctuation(third: u8) -> PastAscii
    ensures whole { script_past_at result ≡ spaces.BeginsWhite → ⊥ }
    ensures is { script_past_at result ≡ spaces.past_ascii (0xE2 ∷ 0x80 ∷ third ∷ []) }
{
    if third == 0xA8 || third == 0xA9 {
        return PastAscii::Separator;
    }
    if (third >= 0x80 && third <= 0x8A) || third == 0xAF {
        return PastAscii::Space;
    }
    PastAscii::Other
}

// Three bytes, of which the first one is that of general punctuation.
#[tactic(auto, using(crate::proofs::WhiteBytes::white_rules))]
fn behind_e2(second: u8, third: u8) -> PastAscii
    ensures whole { script_past_at result ≡ spaces.BeginsWhite → ⊥ }
    ensures is { script_past_at result ≡ spaces.past_ascii (0xE2 ∷ second ∷ third ∷ []) }
{
    if second == 0x80 {
        return punctuation(third);
    }
    if second == 0x81 {
        return if third == 0x9F {
            PastAscii::Space
        } else {
            PastAscii::Other
        };
    }
    PastAscii::Other
}

// Three bytes, of which the first two may be those of a space.
#[tactic(auto, using(crate::proofs::WhiteBytes::white_rules))]
fn three(first: u8, second: u8, third: u8) -> PastAscii
    ensures whole { script_past_at result ≡ spaces.BeginsWhite → ⊥ }
    ensures is { script_past_at result ≡ spaces.past_ascii (first ∷ second ∷ third ∷ []) }
{
    if first == 0xE1 {
        if second == 0x9A {
            return if third == 0x80 {
                PastAscii::Space
            } else {
                PastAscii::Other
            };
        }
        return PastAscii::Other;
    }
    if first == 0xE2 {
        return behind_e2(second, third);
    }
    if first == 0xE3 {
        if second == 0x80 {
            return if third == 0x80 {
                PastAscii::Space
            } else {
                PastAscii::Other
            };
        }
        return PastAscii::Other;
    }
    if first == 0xEF {
        if second == 0xBB {
            return if third == 0xBF {
                PastAscii::Space
            } else {
                PastAscii::Other
            };
        }
        return PastAscii::Other;
    }
    PastAscii::Other
}

// A byte behind those that are held back.
pub fn past_ascii(held: ScriptHeld, byte: u8) -> PastAscii
    ensures whole { IsPastAscii (script_past_at result) (script_held_at held) }
    ensures is { script_past_at result ≡ spaces.past_ascii (script_held_at held ++ byte ∷ []) }
{
    match held {
        ScriptHeld::None => alone(byte),
        ScriptHeld::One(a) => two(a, byte),
        ScriptHeld::Two(a, b) => three(a, b, byte),
    }
}

// What is held back behind a byte that does not go on with what was.
fn held_alone(byte: u8) -> ScriptHeld
    ensures { script_held_at result ≡ spaces.held_alone (spaces.past_ascii (byte ∷ [])) byte }
{
    match alone(byte) {
        PastAscii::BeginsWhite => ScriptHeld::One(byte),
        _ => ScriptHeld::None,
    }
}

// The same by what the bytes are together.
fn held_by(found: PastAscii, held: ScriptHeld, byte: u8) -> ScriptHeld
    requires { IsPastAscii (script_past_at found) (script_held_at held) }
    ensures { script_held_at result
        ≡ spaces.held_past_ascii (script_past_at found) (script_held_at held) byte }
{
    match (found, held) {
        (PastAscii::Space | PastAscii::Separator, _) => ScriptHeld::None,
        (PastAscii::BeginsWhite, ScriptHeld::None) => ScriptHeld::One(byte),
        (PastAscii::BeginsWhite, ScriptHeld::One(a)) => ScriptHeld::Two(a, byte),
        (PastAscii::BeginsWhite, ScriptHeld::Two(_, _)) => unreachable!(),
        (PastAscii::Other, _) => held_alone(byte),
    }
}

// What is held back behind a byte, where it matters whether a character is white space.
#[tactic(auto, unfolding(js_lexer::specs::WhiteSpace::held_after))]
fn held_after(held: ScriptHeld, byte: u8) -> ScriptHeld
    ensures { script_held_at result ≡ spaces.held_after (script_held_at held) byte }
{
    if byte < 128 {
        return ScriptHeld::None;
    }
    held_by(past_ascii(held, byte), held, byte)
}

/// What is held back behind a byte.
pub fn next_held(apart: bool, held: ScriptHeld, byte: u8) -> ScriptHeld
    ensures { script_held_at result ≡ held_at apart (script_held_at held) byte }
{
    if apart {
        held_after(held, byte)
    } else {
        ScriptHeld::None
    }
}

// The class of the first byte that is released: of those that are held back, or of the one at hand.
fn first_of(held: ScriptHeld, class: ScriptClass, byte: u8) -> ScriptClass
    ensures { Some result ≡ script_first_class
        (spaces.classed_as ScriptClass.Letter (script_held_at held)
        ++ spaces.classed class byte ∷ []) }
{
    match held {
        ScriptHeld::None => class,
        _ => ScriptClass::Letter,
    }
}

// The class of the first byte that a byte past ASCII releases, where it releases one.
fn first_past_ascii(held: ScriptHeld, byte: u8) -> Option<ScriptClass>
    ensures { result ≡ script_first_class (spaces.released_past_ascii
        (spaces.past_ascii (script_held_at held ++ byte ∷ [])) (script_held_at held) byte) }
{
    match past_ascii(held, byte) {
        PastAscii::Space => Some(ScriptClass::Space),
        PastAscii::Separator => Some(ScriptClass::LineEnd),
        PastAscii::BeginsWhite => None,
        PastAscii::Other => match (held, alone(byte)) {
            (ScriptHeld::None, PastAscii::BeginsWhite) => None,
            _ => Some(first_of(held, class_of(byte), byte)),
        },
    }
}

/// The class of the first byte that a byte releases, where it releases one.
#[tactic(auto, unfolding(js_lexer::specs::WhiteSpace::released))]
pub fn first_class(apart: bool, held: ScriptHeld, byte: u8) -> Option<ScriptClass>
    ensures { result ≡ script_first_class
        (read_at apart (script_held_at held) (classes.class_of byte) byte) }
{
    if !apart {
        return Some(class_of(byte));
    }
    if byte < 128 {
        return Some(first_of(held, class_of(byte), byte));
    }
    first_past_ascii(held, byte)
}

/// Whether a byte releases any.
pub fn releases(apart: bool, held: ScriptHeld, byte: u8) -> bool
    ensures { result ≡ script_releases
        (read_at apart (script_held_at held) (classes.class_of byte) byte) }
{
    match first_class(apart, held, byte) {
        Some(_) => true,
        None => false,
    }
}

/// How many bytes are held back.
pub fn bytes(held: ScriptHeld) -> u128
    ensures { result ≡ length (script_held_at held) }
{
    match held {
        ScriptHeld::None => 0,
        ScriptHeld::One(_) => 1,
        ScriptHeld::Two(_, _) => 2,
    }
}
