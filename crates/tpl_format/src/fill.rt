ghost use Rattle.std.specs.Prelude.{ℕ, [], ◌∷◌, ◌≡◌, ◌++◌, ◌-◌, IfOk, OnOk, length, replicate};
ghost use Rattle.tpl_format.specs.Operands.{width_filled, padded};
ghost use Rattle.std.specs.Fmt.{is_char_start};
ghost use Rattle.tpl_format.specs.Operands as spec;

use crate::verb::Verb;
use page_io::{Memory, Text};
use std::alloc::Global;

/// A text with spaces up to the width of a verb. Fails only if allocation fails.
pub(crate) fn fill(alloc: Global, verb: Verb, text: &str) -> Result<Text, Memory>
    ensures { IfOk result (λ whole. whole ≡ width_filled verb text.now) }
{
    pad(alloc, verb, text, gap(verb, characters(text)))
}

/// The same of a text that has as many characters as bytes, which are not counted one by one.
pub(crate) fn fill_ascii(alloc: Global, verb: Verb, text: &str) -> Result<Text, Memory>
    requires { spec.characters text.now ≡ length text.now }
    ensures { IfOk result (λ whole. whole ≡ width_filled verb text.now) }
{
    pad(alloc, verb, text, gap(verb, text.len()))
}

// A text with so many spaces, after it where the verb says so, and else before it.
fn pad(alloc: Global, verb: Verb, text: &str, spaces: usize) -> Result<Text, Memory>
    ensures { IfOk result (λ whole. whole ≡ padded verb text.now spaces) }
{
    let mut whole = Text::new(alloc);
    if verb.left {
        whole.push_str(text)?;
        push_times(&mut whole, " ", spaces)?;
        return Ok(whole);
    }
    push_times(&mut whole, " ", spaces)?;
    whole.push_str(text)?;
    Ok(whole)
}

/// A sign and digits with zeros or spaces up to the width of a verb. Fails only if allocation fails.
pub(crate) fn fill_number(
    alloc: Global,
    verb: Verb,
    sign: &str,
    digits: &str,
) -> Result<Text, Memory>
    ensures { IfOk result (λ whole. whole ≡ spec.filled_number verb sign.now digits.now) }
{
    let mut number = Text::copy_of(alloc, sign)?;
    number.push_str(digits)?;
    if verb.zeros && !verb.left {
        let mut whole = Text::copy_of(alloc, sign)?;
        push_times(&mut whole, "0", gap(verb, characters(number.as_str())))?;
        whole.push_str(digits)?;
        return Ok(whole);
    }
    fill(alloc, verb, number.as_str())
}

// How many characters are too few for the width of a verb.
fn gap(verb: Verb, count: usize) -> usize
    ensures { result ≡ verb.width - count }
{
    usize::from(verb.width).saturating_sub(count)
}

// How many characters a text has.
fn characters(text: &str) -> usize
    ensures { result ≡ spec.characters text.now }
{
    let mut count = 0;
    for byte in text.as_bytes() {
        if begins_character(*byte) {
            count += 1;
        }
    }
    count
}

fn begins_character(byte: u8) -> bool
    ensures { result ≡ is_char_start byte }
{
    byte < 0x80 || 0xC0 <= byte
}

// Appends a text of one byte that many times.
fn push_times(out: &mut Text, mark: &str, times: usize) -> Result<(), Memory>
    ensures { OnOk result ((b : ℕ) → mark.now ≡ b ∷ []
        → out.new ≡ out.old ++ replicate times b) }
{
    for _ in 0..times {
        out.push_str(mark)?;
    }
    Ok(())
}
