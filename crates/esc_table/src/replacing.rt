ghost use Rattle.std.specs.Prelude.{◌≡◌, ◌<◌, ◌≤◌, ◌-◌, ◌++◌, IfOk, OnOk, length, string_bytes};
ghost use Rattle.esc_table.specs.Kept.{kept_by};
ghost use Rattle.esc_table.specs.Replaced.{row_written, replaced, StepWrites};

use crate::Table;
use crate::run::run_len;
use page_io::{Memory, Text};
use std::alloc::Global;

/// The text with each character that has a row in the table replaced by what the row says. Every other character stays
/// as it is, and what was written for one character is not looked at again. Fails only if allocation fails.
pub fn replace<const N: usize>(alloc: Global, table: &Table<N>, text: &str) -> Result<Text, Memory>
    ensures { IfOk result (λ row_written. row_written ≡ replaced table.now text.now) }
{
    let mut out = String::new(alloc);
    push_replaced(&mut out, table, text)?;
    Ok(Text::from(out))
}

/// Appends what `replace` gives. Fails only if allocation fails, and then a part of it may be there.
pub fn push_replaced<const N: usize>(
    out: &mut String,
    table: &Table<N>,
    text: &str,
) -> Result<(), Memory>
    ensures { OnOk result (string_bytes out.new
        ≡ string_bytes out.old ++ replaced table.now text.now) }
{
    let kept = table.kept();
    let mut rest = text;
    while !rest.is_empty() {
        rest = push_run(out, table, &kept, rest)?;
    }
    Ok(())
}

// Appends the run of bytes at the beginning of a text that stand for themselves, and what is written for the character
// after it. What is after that is left.
fn push_run<'a, const N: usize>(
    out: &mut String,
    table: &Table<N>,
    kept: &[bool; 256],
    text: &'a str,
) -> Result<&'a str, Memory>
    requires some { 0 < length text.now }
    requires kept { kept.now ≡ kept_by table.now }
    ensures written { IfOk result (λ rest.
        StepWrites table.now text.now rest.now (string_bytes out.old) (string_bytes out.new)) }
    ensures shorter { IfOk result (λ rest. length rest.now < length text.now) }
{
    let (run, behind) = text.split_at(run_len(kept, text.as_bytes()));
    out.push_str(run)?;
    push_first(out, table, behind)
}

// Appends what is written for the first character of a text, if it has one. What is after it is left.
fn push_first<'a, const N: usize>(
    out: &mut String,
    table: &Table<N>,
    text: &'a str,
) -> Result<&'a str, Memory>
    ensures written { IfOk result (λ rest.
        StepWrites table.now text.now rest.now (string_bytes out.old) (string_bytes out.new)) }
    ensures shorter { IfOk result (λ rest. length rest.now ≤ length text.now - 1) }
{
    let mut characters = text.chars();
    match characters.next() {
        None => Ok(text),
        Some(character) => {
            push_written(out, table, character)?;
            Ok(characters.as_str())
        }
    }
}

// Appends what is written for a character.
fn push_written<const N: usize>(
    out: &mut String,
    table: &Table<N>,
    character: char,
) -> Result<(), Memory>
    ensures { OnOk result (string_bytes out.new
        ≡ string_bytes out.old ++ row_written table.now character) }
{
    match table.find(character) {
        Some(replacement) => out.push_str(replacement)?,
        None => out.push(character)?,
    }
    Ok(())
}
