ghost use Rattle.std.specs.Prelude.{◌≡◌, ◌≤◌, true, false, length, IfSome};
ghost use Rattle.place_core.specs.page.Characters.{char_at};
ghost use Rattle.place_core.specs.page.Characters as spec;

use crate::reference::{ITSELF, is_broken_off, reference_at};
use crate::utf8::first_character;

/// The first character of bytes with references undone, in the value of an attribute or in text, as its code point, and how many
/// bytes it takes. None at the end. Bytes that are no UTF-8, and references that stand for no character, are U+FFFD; what is no
/// reference is itself. (HTML Standard, sections 13.2.5.72 to 13.2.5.80; Encoding Standard, section 8.1.1.) Does not allocate.
pub fn next_char(bytes: &[u8], attr: bool) -> Option<(u32, usize)>
    ensures { result ≡ char_at attr false bytes.now }
{
    match bytes.split_first() {
        None => None,
        Some((byte, rest)) => Some(character_at(attr, *byte, rest)),
    }
}

/// The first character of a value with references undone, and how many bytes it takes. Where the value is cut at its end, what is a
/// reference only because it ends there is read as it is.
pub fn next_in_value(bytes: &[u8], cut: bool) -> Option<(u32, usize)>
    ensures first { result ≡ char_at true cut bytes.now }
    ensures some { IfSome result (λ first. 1 ≤ first.1) }
    ensures bound { IfSome result (λ first. first.1 ≤ length bytes.now) }
{
    match bytes.split_first() {
        None => None,
        Some((byte, rest)) => {
            if cut && *byte == b'&' && is_broken_off(rest) {
                return Some(ITSELF);
            }
            Some(character_at(true, *byte, rest))
        }
    }
}

fn character_at(attr: bool, byte: u8, rest: &[u8]) -> (u32, usize)
    ensures { result ≡ spec.character_at attr false byte rest.now }
{
    if byte == b'&' {
        return reference_at(attr, rest);
    }
    first_character(byte, rest)
}
