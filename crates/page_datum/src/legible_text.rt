ghost use Rattle.std.specs.Prelude.{◌≡◌, ◌<◌, ◌++◌, Some, IfOk, length, take, codes};
ghost use Rattle.std.specs.Fmt.{WritesOnOk};
ghost use Rattle.std.specs.Fmt.Cut.{floor_char_boundary};
ghost use Rattle.page_datum.specs.Legible.{legible_character, hex_digits};
ghost use Rattle.std.specs.Char.{digit_char};
ghost use Rattle.page_datum.specs.Legible as spec;

use page_io::{Memory, Text};
use std::alloc::Global;
use std::fmt;

// The most bytes of a path that are shown.
const MAX_PATH: usize = 1000;

/// A text as it stands in a line for people, so that it can neither end the line nor act on a
/// terminal: control characters, line ends and bidirectional controls as `\u` with four digits, a
/// backslash twice, every other character as it is. Fails only if allocation fails.
pub fn legible(alloc: Global, text: &str) -> Result<Text, Memory>
    ensures { IfOk result (λ shown. shown ≡ spec.legible text.now) }
{
    let shown = PrintedText { text };
    Ok(Text::from(format!(in alloc; "{shown}")?))
}

/// A path of data as it stands in a line for people: where it has more than 1,000 bytes, its first
/// characters within these, and `..`. Fails only if allocation fails.
pub fn legible_path(alloc: Global, path: &str) -> Result<Text, Memory>
    ensures { IfOk result (λ shown. shown ≡ spec.legible_path path.now) }
{
    let shown = PrintedPath { path };
    Ok(Text::from(format!(in alloc; "{shown}")?))
}

// A text that prints as it stands in a line for people.
#[derive(Clone, Copy)]
struct PrintedText<'a> {
    text: &'a str,
}

impl fmt::Display for PrintedText<'_> {
    ghost output = { λ shown. Some (spec.legible shown.text.now) };

    fn fmt<W: fmt::Write>(&self, f: &mut fmt::Formatter<W>) -> fmt::Result {
        write_text(f, self.text)
    }
}

// A path of data that prints as it stands in a line for people.
#[derive(Clone, Copy)]
pub(crate) struct PrintedPath<'a> {
    path: &'a str,
}

impl<'a> PrintedPath<'a> {
    pub(crate) fn of(path: &'a str) -> PrintedPath<'a>
        ensures { result.path.now ≡ path.entry.now }
    {
        PrintedPath { path }
    }
}

impl fmt::Display for PrintedPath<'_> {
    ghost output = { λ shown. Some (spec.legible_path shown.path.now) };

    fn fmt<W: fmt::Write>(&self, f: &mut fmt::Formatter<W>) -> fmt::Result {
        if self.path.len() <= MAX_PATH {
            let text = PrintedText { text: self.path };
            return write!(f, "{text}");
        }
        let text = PrintedText {
            text: prefix(self.path, MAX_PATH),
        };
        write!(f, "{text}..")
    }
}

// The first characters of a text, within that many bytes.
fn prefix(text: &str, most: usize) -> &str
    requires { most < length text.now }
    ensures { result.now ≡ take (floor_char_boundary text.now most) text.now }
{
    if most == 0 {
        return "";
    }
    if text.is_char_boundary(most) {
        let (front, _) = text.split_at(most);
        return front;
    }
    prefix(text, most - 1)
}

fn write_text<W: fmt::Write>(f: &mut fmt::Formatter<W>, text: &str) -> fmt::Result
    ensures { WritesOnOk W.write_str_gives f.old result (spec.legible text.now) f.new }
{
    for character in text.chars() {
        write_character(f, character)?;
    }
    Ok(())
}

fn write_character<W: fmt::Write>(f: &mut fmt::Formatter<W>, character: char) -> fmt::Result
    ensures { WritesOnOk W.write_str_gives f.old result (legible_character character) f.new }
{
    if is_hidden(character) {
        return write_number(f, character as u32);
    }
    if character == '\\' {
        return f.write_str("\\\\");
    }
    f.write_char(character)
}

fn is_hidden(character: char) -> bool
    ensures { result ≡ spec.is_hidden character }
{
    matches!(
        character,
        '\0'..='\u{1F}'
            | '\u{7F}'..='\u{9F}'
            | '\u{61C}'
            | '\u{200E}'..='\u{200F}'
            | '\u{2028}'..='\u{202E}'
            | '\u{2066}'..='\u{2069}'
    )
}

// Writes `\u` and the four last digits of a number.
fn write_number<W: fmt::Write>(f: &mut fmt::Formatter<W>, number: u32) -> fmt::Result
    ensures { WritesOnOk W.write_str_gives f.old result (codes "\\u" ++ hex_digits number) f.new }
{
    let (first, second) = (hex_digit(number / 4096 % 16), hex_digit(number / 256 % 16));
    let (third, fourth) = (hex_digit(number / 16 % 16), hex_digit(number % 16));
    write!(f, "\\u{first}{second}{third}{fourth}")
}

fn hex_digit(number: u32) -> char
    requires { number < 16 }
    ensures { result ≡ digit_char number }
{
    match number {
        0..=9 => (b'0' + number as u8) as char,
        _ => (b'a' + (number as u8 - 10)) as char,
    }
}
