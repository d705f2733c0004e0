ghost use Rattle.std.specs.Prelude.{◌≡◌, ◌≤◌, ◌+◌, ◌==◌, ◌&&◌, [], ◌∷◌, if◌then◌else◌, length, max, not};
ghost use Rattle.js_lexer.specs.Trails as trails;
ghost use Rattle.js_step.specs.ScriptScanViews.{most_bytes};
ghost use Rattle.js_step.specs.ScriptScanViews.{script_lexeme_at, script_unfinished_at};

use crate::scan::{ScriptAt, ScriptUnfinished};

// How many bytes.
pub fn bytes(escape: ScriptUnfinished) -> u128
    ensures { result ≡ length (script_unfinished_at escape) }
{
    match escape {
        ScriptUnfinished::None => 0,
        ScriptUnfinished::Backslash => 1,
        ScriptUnfinished::One(_) => 2,
        ScriptUnfinished::Two(_, _) => 3,
        ScriptUnfinished::Three(_, _, _) => 4,
        ScriptUnfinished::Four(_, _, _, _) => 5,
    }
}

// Whether no escape has begun.
pub fn is_closed(escape: ScriptUnfinished) -> bool
    ensures { result ≡ trails.is_empty (script_unfinished_at escape) }
{
    match escape {
        ScriptUnfinished::None => true,
        _ => false,
    }
}

// Behind a backslash, the byte that an escape goes on with: hexadecimal digits and others follow it, or none.
fn goes_on(regexp: bool, byte: u8) -> bool
    ensures { result ≡ trails.is_unfinished_after regexp (byte ∷ []) }
{
    match byte {
        b'x' | b'u' | b'0'..=b'9' => true,
        b'c' => regexp,
        b'\r' => !regexp,
        _ => false,
    }
}

// An escape of two bytes behind the backslash that goes on: `\x` and a hexadecimal digit, `\u` and one, two digits.
fn goes_on_by_two(regexp: bool, first: u8, second: u8) -> bool
    ensures { result ≡ trails.is_unfinished_after regexp (first ∷ second ∷ []) }
{
    match first {
        b'x' | b'u' => second.is_ascii_hexdigit(),
        b'0'..=b'9' => second.is_ascii_digit(),
        _ => false,
    }
}

// One of three: `\u` and two hexadecimal digits.
fn goes_on_by_three(regexp: bool, first: u8, second: u8, third: u8) -> bool
    ensures { result ≡ trails.is_unfinished_after regexp (first ∷ second ∷ third ∷ []) }
{
    first == b'u' && second.is_ascii_hexdigit() && third.is_ascii_hexdigit()
}

// One of four: `\u` and three hexadecimal digits.
fn goes_on_by_four(regexp: bool, first: u8, second: u8, third: u8, fourth: u8) -> bool
    ensures { result
        ≡ trails.is_unfinished_after regexp (first ∷ second ∷ third ∷ fourth ∷ []) }
{
    first == b'u'
        && second.is_ascii_hexdigit()
        && third.is_ascii_hexdigit()
        && fourth.is_ascii_hexdigit()
}

// The escape that a byte begins, behind one that it does not go on with.
fn begun(lone: bool, byte: u8) -> ScriptUnfinished
    ensures { script_unfinished_at result
        ≡ (if (byte == 92) && not lone then byte ∷ [] else []) }
{
    if byte == b'\\' && !lone {
        ScriptUnfinished::Backslash
    } else {
        ScriptUnfinished::None
    }
}

// No escape of four bytes behind the backslash goes on.
fn behind_four(
    regexp: bool,
    first: u8,
    second: u8,
    third: u8,
    fourth: u8,
    byte: u8,
) -> ScriptUnfinished
    ensures { script_unfinished_at result ≡ trails.next_unfinished regexp
        (92 ∷ first ∷ second ∷ third ∷ fourth ∷ []) byte }
{
    begun(false, byte)
}

// The escape that is open behind a byte of a string, or of a regular expression.
fn next_unfinished(regexp: bool, escape: ScriptUnfinished, byte: u8) -> ScriptUnfinished
    ensures { script_unfinished_at result
        ≡ trails.next_unfinished regexp (script_unfinished_at escape) byte }
{
    match escape {
        ScriptUnfinished::Backslash if goes_on(regexp, byte) => ScriptUnfinished::One(byte),
        ScriptUnfinished::One(a) if goes_on_by_two(regexp, a, byte) => {
            ScriptUnfinished::Two(a, byte)
        }
        ScriptUnfinished::Two(a, b) if goes_on_by_three(regexp, a, b, byte) => {
            ScriptUnfinished::Three(a, b, byte)
        }
        ScriptUnfinished::Three(a, b, c) if goes_on_by_four(regexp, a, b, c, byte) => {
            ScriptUnfinished::Four(a, b, c, byte)
        }
        ScriptUnfinished::Backslash => begun(true, byte),
        ScriptUnfinished::Four(a, b, c, d) => behind_four(regexp, a, b, c, d, byte),
        _ => begun(false, byte),
    }
}

// The same by the lexeme to which the byte has led.
pub fn next_escape(at: ScriptAt, escape: ScriptUnfinished, byte: u8) -> ScriptUnfinished
    ensures { script_unfinished_at result
        ≡ trails.escape_after (script_lexeme_at at) (script_unfinished_at escape) byte }
{
    match at {
        ScriptAt::InString(_, _) => next_unfinished(false, escape, byte),
        ScriptAt::InRegexp(_, _) => next_unfinished(true, escape, byte),
        _ => ScriptUnfinished::None,
    }
}

// How many bytes have been read of a `\u{` that is not closed.
fn next_open_brace(escape: ScriptUnfinished, brace: u128, byte: u8) -> u128
    requires { brace ≤ most_bytes + 2 }
    ensures most { result ≤ max 3 (brace + 1) }
    ensures brace { result ≡ trails.next_brace (script_unfinished_at escape) brace byte }
{
    if brace > 0 {
        return if byte == b'}' { 0 } else { brace + 1 };
    }
    match (escape, byte) {
        (ScriptUnfinished::One(b'u'), b'{') => 3,
        _ => 0,
    }
}

// The same by the lexeme to which the byte has led.
pub fn next_brace(at: ScriptAt, escape: ScriptUnfinished, brace: u128, byte: u8) -> u128
    requires { brace ≤ most_bytes + 2 }
    ensures most { result ≤ max 3 (brace + 1) }
    ensures brace { result
        ≡ trails.brace_after (script_lexeme_at at) (script_unfinished_at escape) brace byte }
{
    match at {
        ScriptAt::InString(_, _) | ScriptAt::InRegexp(_, _) => next_open_brace(escape, brace, byte),
        _ => 0,
    }
}
