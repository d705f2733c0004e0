ghost use Rattle.std.specs.Prelude.{◌+◌, ◌<◌, ◌^◌, IsTrue, length};

use case_table::{CaseOutput, CaseRow, CaseStop};
use html_words::{RefChars, next_char};
use place_core::{Chars, StrChars};

/// Writes what a call of `place_core` gives: the characters of a text that stands at a place of its node.
pub fn put_text(out: &mut CaseOutput, call: &str, row: &CaseRow) -> Result<(), CaseStop> {
    let (text, at) = (row.text(0)?, row.place(1)?);
    if call != "StrChars" || !is_within(text, at) {
        return Err(CaseStop::Form);
    }
    put_characters(out, StrChars::new(text, at), text.len());
    Ok(())
}

/// Writes the characters of the value of a row, which stands at a place of its node, and is cut at its end or whole.
pub fn put_value(out: &mut CaseOutput, row: &CaseRow) -> Result<(), CaseStop> {
    let (value, at, cut) = (row.text(0)?, row.place(1)?, row.word(2, "whole", "cut")?);
    if !is_within(value, at) {
        return Err(CaseStop::Form);
    }
    put_characters(out, RefChars::new(value, at, cut), value.len());
    Ok(())
}

// Whether all places of a text that stands here have numbers.
fn is_within(text: &str, at: u32) -> bool
    ensures { IsTrue result → at + length text.now < 2 ^ 32 }
{
    at <= 1_000_000 && text.len() <= 1_000_000
}

// Writes the characters that are left, of which there are at most `most`, each in hex with its place. A copy that reads
// ahead leaves them as they are.
fn put_characters<C: Chars>(out: &mut CaseOutput, characters: C, most: usize) {
    let mut ahead = characters;
    let _ = ahead.next();
    let mut characters = characters;
    for _ in 0..most.saturating_add(1) {
        if let Some((code, place)) = characters.next() {
            out.put_between(" ");
            out.put_made(format!(in out.alloc(); "{code:x}@{place}"));
        }
    }
}

/// Writes the first character of the bytes of a row, which stand in a text or in a value, in hex, and how many bytes it
/// takes.
pub fn put_first(out: &mut CaseOutput, row: &CaseRow) -> Result<(), CaseStop> {
    let is_value = row.word(1, "text", "value")?;
    let bytes = row.bytes(out.alloc(), 0)?;
    put_character(out, bytes.as_slice(), is_value, usize::MAX);
    Ok(())
}

/// Writes the first character of the bytes of a row before others, in hex, and where it takes not just those, how many it
/// takes.
pub fn put_prefix(out: &mut CaseOutput, row: &CaseRow) -> Result<(), CaseStop> {
    let is_value = row.word(2, "text", "value")?;
    let rest = row.bytes(out.alloc(), 1)?;
    let mut bytes = row.bytes(out.alloc(), 0)?;
    let len = bytes.len();
    bytes.push_slice(rest.as_slice())?;
    put_character(out, bytes.as_slice(), is_value, len);
    Ok(())
}

// Writes the first character in hex, and how many bytes it takes, where that is another number.
fn put_character(out: &mut CaseOutput, bytes: &[u8], is_value: bool, len: usize) {
    match next_char(bytes, is_value) {
        Some((code, taken)) if taken == len => out.put_made(format!(in out.alloc(); "{code:x}")),
        Some((code, taken)) => out.put_made(format!(in out.alloc(); "{code:x} {taken}")),
        None => out.put("none"),
    }
}
