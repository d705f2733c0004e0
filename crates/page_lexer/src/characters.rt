// The characters of names, of values and of what scripts and styles are read from.
ghost use Rattle.std.specs.Prelude.{◌≡◌, ◌++◌, IfOk, OnOk, string_bytes};
ghost use Rattle.page_lexer.specs.Characters as spec;

use crate::parts::behind;
use html_words::next_char;
use page_io::{Memory, Text};
use std::alloc::Global;

/// The text of bytes as UTF-8. A byte of no well formed character is U+FFFD.
pub fn shown_text(alloc: Global, bytes: &[u8]) -> Result<Text, Memory>
    ensures { IfOk result (λ text. text ≡ spec.shown_text bytes.now) }
{
    Ok(Text::from(string_of(alloc, bytes, false)?))
}

/// The text of the value of an attribute, with references undone.
pub fn shown_value(alloc: Global, bytes: &[u8]) -> Result<Text, Memory>
    ensures { IfOk result (λ text. text ≡ spec.shown_value bytes.now) }
{
    Ok(Text::from(string_of(alloc, bytes, true)?))
}

/// The text of a name, in lower case.
pub fn name_text(alloc: Global, bytes: &[u8]) -> Result<Text, Memory>
    ensures { IfOk result (λ text. text ≡ spec.name_text bytes.now) }
{
    let mut name = string_of(alloc, bytes, false)?;
    name.make_ascii_lowercase();
    Ok(Text::from(name))
}

// The characters one after the other, with references undone or not.
fn string_of(alloc: Global, bytes: &[u8], references: bool) -> Result<String, Memory>
    ensures { IfOk result (λ text. string_bytes text ≡ spec.shown_characters references bytes.now) }
{
    let mut out = String::new(alloc);
    let mut rest = bytes;
    // Each character takes a byte at least.
    for _turn in bytes {
        match first_of(rest, references) {
            None => return Ok(out),
            Some((code, len)) => {
                push_code(&mut out, code)?;
                rest = behind(rest, len);
            }
        }
    }
    Ok(out)
}

// The first character and how many bytes it takes.
fn first_of(bytes: &[u8], references: bool) -> Option<(u32, usize)>
    ensures { result ≡ spec.first_of references bytes.now }
{
    match bytes.split_first() {
        None => None,
        Some((byte, _)) => {
            if *byte == b'&' && !references {
                return Some((38, 1));
            }
            next_char(bytes, true)
        }
    }
}

// Appends a character by its code.
fn push_code(out: &mut String, code: u32) -> Result<(), Memory>
    ensures { OnOk result (string_bytes out.new ≡ string_bytes out.old ++ spec.code_bytes code) }
{
    match char::from_u32(code) {
        Some(character) => out.push(character)?,
        None => out.push('\u{FFFD}')?,
    }
    Ok(())
}
