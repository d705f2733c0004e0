// The first character of bytes as UTF-8 (Encoding Standard, section 8.1.1).
ghost use Rattle.std.specs.Prelude.{◌≡◌};
ghost use Rattle.place_core.specs.page.Utf8.{partial_begun};
ghost use Rattle.std.specs.Str.{continuation_len as continuation_len_of, lead_bits as lead_bits_of};
ghost use Rattle.std.specs.Str.Lossy.{second_byte_max as second_byte_max_of, second_byte_min as second_byte_min_of};
ghost use Rattle.std.specs.Prelude.{IsTrue};
ghost use Rattle.place_core.specs.page.Utf8 as spec;

use crate::number::REPLACEMENT;

/// The first character of bytes, of which the first stands apart, and how many bytes it takes. A byte with which no well formed
/// character begins is U+FFFD.
pub fn first_character(byte: u8, rest: &[u8]) -> (u32, usize)
    ensures { result ≡ spec.first_character byte rest.now }
{
    if byte < 128 {
        return (u32::from(byte), 1);
    }
    if !is_lead(byte) {
        return (REPLACEMENT, 1);
    }
    match followed(byte, rest) {
        Some(character) => character,
        None => (REPLACEMENT, 1),
    }
}

// Whether a character of several bytes begins with this byte.
fn is_lead(byte: u8) -> bool
    ensures { result ≡ spec.is_lead byte }
{
    194 <= byte && byte <= 244
}

// The character that a byte begins with those after it, where they go on with it.
fn followed(lead: u8, rest: &[u8]) -> Option<(u32, usize)>
    requires { IsTrue (spec.is_lead lead) }
    ensures { result ≡ spec.utf8_followed (partial_begun lead) rest.now }
{
    let mut needed = continuation_len(lead);
    let mut lower = second_byte_min(lead);
    let mut upper = second_byte_max(lead);
    let mut bits = lead_bits(lead);
    for (at, byte) in rest.iter().enumerate() {
        if *byte < lower || upper < *byte {
            return None;
        }
        bits = bits * 64 + u32::from(*byte - 128);
        if needed == 1 {
            return Some((bits, at + 2));
        }
        needed -= 1;
        lower = 128;
        upper = 191;
    }
    None
}

fn continuation_len(lead: u8) -> u32
    ensures { result ≡ continuation_len_of lead }
{
    if lead < 128 {
        return 0;
    }
    if lead < 224 {
        return 1;
    }
    if lead < 240 {
        return 2;
    }
    3
}

// The bits of the character that its first byte has.
fn lead_bits(lead: u8) -> u32
    ensures { result ≡ lead_bits_of lead }
{
    if lead < 128 {
        return u32::from(lead);
    }
    if lead < 224 {
        return u32::from(lead.saturating_sub(192));
    }
    if lead < 240 {
        return u32::from(lead) - 224;
    }
    u32::from(lead) - 240
}

// The least and the greatest byte that may follow.
fn second_byte_min(lead: u8) -> u8
    ensures { result ≡ second_byte_min_of lead }
{
    match lead {
        0xE0 => 0xA0,
        0xF0 => 0x90,
        _ => 0x80,
    }
}

fn second_byte_max(lead: u8) -> u8
    ensures { result ≡ second_byte_max_of lead }
{
    match lead {
        0xED => 0x9F,
        0xF4 => 0x8F,
        _ => 0xBF,
    }
}
