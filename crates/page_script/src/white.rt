ghost use Rattle.std.specs.Prelude.{◌≡◌, ◌++◌, ◌∷◌, []};
ghost use Rattle.js_lexer.specs.Feeding.{held_at};
ghost use Rattle.js_lexer.specs.WhiteSpace as spaces;
ghost use Rattle.page_script.specs.ReadViews.{IsPast, past_begins};
ghost use Rattle.page_script.specs.ReadViews.{held_bytes, past_at};

/// The bytes that are held back of what may be white space past ASCII.
#[derive(Clone, Copy)]
pub enum Held {
    None,
    One(u8),
    Two(u8, u8),
}

/// What bytes past ASCII are: white space of the one kind or the other, the beginning of such a character, or neither.
#[derive(Clone, Copy)]
pub enum Past {
    Space,
    Separator,
    BeginsWhite,
    Other,
}

// Whether a byte begins white space by itself.
#[tactic(auto, using(crate::proofs::WhiteBytes::white_rules))]
pub fn begins_white(byte: u8) -> bool
    ensures { past_begins result ≡ spaces.past_ascii (byte ∷ []) }
{
    if byte == 0xC2 {
        return true;
    }
    if byte == 0xE1 {
        return true;
    }
    if byte == 0xE2 {
        return true;
    }
    if byte == 0xE3 {
        return true;
    }
    if byte == 0xEF {
        return true;
    }
    false
}

// One byte.
fn alone(byte: u8) -> Past
    ensures { past_at result ≡ spaces.past_ascii (byte ∷ []) }
{
    if begins_white(byte) {
        Past::BeginsWhite
    } else {
        Past::Other
    }
}

// Two bytes.
#[tactic(auto, using(crate::proofs::WhiteBytes::white_rules))]
fn two(first: u8, second: u8) -> Past
    ensures { past_at result ≡ spaces.past_ascii (first ∷ second ∷ []) }
{
    if first == 0xC2 {
        return if second == 0xA0 {
            Past::Space
        } else {
            Past::Other
        };
    }
    if first == 0xE1 {
        return if second == 0x9A {
            Past::BeginsWhite
        } else {
            Past::Other
        };
    }
    if first == 0xE2 {
        if second == 0x80 {
            return Past::BeginsWhite;
        }
        return if second == 0x81 {
            Past::BeginsWhite
        } else {
            Past::Other
        };
    }
    if first == 0xE3 {
        return if second == 0x80 {
            Past::BeginsWhite
        } else {
            Past::Other
        };
    }
    if first == 0xEF {
        return if second == 0xBB {
            Past::BeginsWhite
        } else {
            Past::Other
        };
    }
    Past::Other
}

// Three bytes, of which the first two are those of general punctuation.
#[tactic(auto, using(crate::proofs::WhiteBytes::white_rules))]
fn punctuation(third: u8) -> Past
    ensures whole { past_at result ≡ spaces.BeginsWhite → ⊥ }
    ensures is { past_at result ≡ spaces.past_ascii (0xE2 ∷ 0x80 ∷ third ∷ []) }
{
    if third == 0xA8 || third == 0xA9 {
        return Past::Separator;
    }
    if (third >= 0x80 && third <= 0x8A) || third == 0xAF {
        return Past::Space;
    }
    Past::Other
}

// Three bytes, of which the first one is that of general punctuation.
#[tactic(auto, using(crate::proofs::WhiteBytes::white_rules))]
fn behind_e2(second: u8, third: u8) -> Past
    ensures whole { past_at result ≡ spaces.BeginsWhite → ⊥ }
    ensures is { past_at result ≡ spaces.past_ascii (0xE2 ∷ second ∷ third ∷ []) }
{
    if second == 0x80 {
        return punctuation(third);
    }
    if second == 0x81 {
        return if third == 0x9F {
            Past::Space
        } else {
            Past::Other
        };
    }
    Past::Other
}

// Three bytes, of which the first two may be those of a space.
#[tactic(auto, using(crate::proofs::WhiteBytes::white_rules))]
fn three(first: u8, second: u8, third: u8) -> Past
    ensures whole { past_at result ≡ spaces.BeginsWhite → ⊥ }
    ensures is { past_at result ≡ spaces.past_ascii (first ∷ second ∷ third ∷ []) }
{
    if first == 0xE1 {
        if second == 0x9A {
            return if third == 0x80 {
                Past::Space
            } else {
                Past::Other
            };
        }
        return Past::Other;
    }
    if first == 0xE2 {
        return behind_e2(second, third);
    }
    if first == 0xE3 {
        if second == 0x80 {
            return if third == 0x80 {
                Past::Space
            } else {
                Past::Other
            };
        }
        return Past::Other;
    }
    if first == 0xEF {
        if second == 0xBB {
            return if third == 0xBF {
                Past::Space
            } else {
                Past::Other
            };
        }
        return Past::Other;
    }
    Past::Other
}

// A byte behind those that are held back.
pub fn past_ascii(held: Held, byte: u8) -> Past
    ensures whole { IsPast (past_at result) (held_bytes held) }
    ensures is { past_at result ≡ spaces.past_ascii (held_bytes held ++ byte ∷ []) }
{
    match held {
        Held::None => alone(byte),
        Held::One(a) => two(a, byte),
        Held::Two(a, b) => three(a, b, byte),
    }
}

// What is held back behind a byte that does not go on with what was.
fn held_alone(byte: u8) -> Held
    ensures { held_bytes result ≡ spaces.held_alone (spaces.past_ascii (byte ∷ [])) byte }
{
    match alone(byte) {
        Past::BeginsWhite => Held::One(byte),
        _ => Held::None,
    }
}

// The same by what the bytes are together.
fn held_by(found: Past, held: Held, byte: u8) -> Held
    requires { IsPast (past_at found) (held_bytes held) }
    ensures { held_bytes result
        ≡ spaces.held_past_ascii (past_at found) (held_bytes held) byte }
{
    match (found, held) {
        (Past::Space | Past::Separator, _) => Held::None,
        (Past::BeginsWhite, Held::None) => Held::One(byte),
        (Past::BeginsWhite, Held::One(a)) => Held::Two(a, byte),
        (Past::BeginsWhite, Held::Two(_, _)) => unreachable!(),
        (Past::Other, _) => held_alone(byte),
    }
}

// What is held back behind a byte, where it matters whether a character is white space.
#[tactic(auto, unfolding(js_lexer::specs::WhiteSpace::held_after))]
fn held_after(held: Held, byte: u8) -> Held
    ensures { held_bytes result ≡ spaces.held_after (held_bytes held) byte }
{
    if byte < 128 {
        return Held::None;
    }
    held_by(past_ascii(held, byte), held, byte)
}

/// What is held back behind a byte.
pub fn next_held(apart: bool, held: Held, byte: u8) -> Held
    ensures { held_bytes result ≡ held_at apart (held_bytes held) byte }
{
    if apart {
        held_after(held, byte)
    } else {
        Held::None
    }
}
