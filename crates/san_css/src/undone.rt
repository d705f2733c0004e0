// A text with its escapes undone. (CSS Syntax Level 3, section 4.3.7.)
ghost use Rattle.std.specs.Prelude.{◌≡◌, ◌<◌, ◌≤◌, ◌++◌, true, IfOk, OnOk, drop, encode_utf8, length, string_bytes};
ghost use Rattle.std.specs.Char.{is_ascii_hexdigit};
ghost use Rattle.std.specs.Str.{IsCharBoundary};
ghost use Rattle.url_lexer.specs.Back.{hexadecimal_value};
ghost use Rattle.css_lexer.specs.Unescaping.{AsItIs, Digits, Escaped, character_of, style_undone};
ghost use Rattle.css_lexer.specs.Unescaping as spec;
ghost use Rattle.san_css.specs.Undoing.{UndoesOn, without_blank};

use page_io::Memory;

/// Appends a text with its escapes undone. Fails only if allocation fails, and then a part of it may be there.
pub(crate) fn push_undone(out: &mut String, text: &str) -> Result<(), Memory>
    ensures { OnOk result (string_bytes out.new
        ≡ string_bytes out.old ++ spec.style_escapes_undone text.now) }
{
    let mut rest = text;
    while let Some((front, behind)) = rest.split_once('\\') {
        out.push_str(front)?;
        rest = push_escaped(out, behind)?;
    }
    out.push_str(rest)?;
    Ok(())
}

// Appends what an escape stands for, of a text that is behind its backslash. What is behind the escape is left.
fn push_escaped<'a>(out: &mut String, text: &'a str) -> Result<&'a str, Memory>
    ensures written { IfOk result (λ rest.
        UndoesOn Escaped text.now rest.now (string_bytes out.old) (string_bytes out.new)) }
    ensures bound { IfOk result (λ rest. length rest.now ≤ length text.now) }
{
    match text.as_bytes().first() {
        None => {
            out.push('\\')?;
            Ok(text)
        }
        Some(byte) if byte.is_ascii_hexdigit() => push_character(out, text),
        Some(b'\\') => {
            out.push('\\')?;
            Ok(&text[1..])
        }
        Some(_) => Ok(text),
    }
}

// Appends the character whose number is at the beginning of a text. What is behind it and one blank is left.
fn push_character<'a>(out: &mut String, text: &'a str) -> Result<&'a str, Memory>
    ensures written { IfOk result (λ rest.
        UndoesOn (Digits 6 0) text.now rest.now (string_bytes out.old) (string_bytes out.new)) }
    ensures bound { IfOk result (λ rest. length rest.now ≤ length text.now) }
{
    let (number, len) = read_number(text);
    out.push(character(number))?;
    Ok(behind_blank(&text[len..]))
}

// The number at the beginning of a text, and how many digits it has, six at most.
fn read_number(text: &str) -> (u32, usize)
    ensures value { style_undone (Digits 6 0) text.now
        ≡ encode_utf8 (character_of result.0)
        ++ style_undone AsItIs (without_blank (drop result.1 text.now)) }
    ensures cut { IsCharBoundary text.now result.1 }
{
    let bytes = text.as_bytes();
    let mut number = 0;
    let mut len = 0;
    while len < 6 && len < bytes.len() && bytes[len].is_ascii_hexdigit() {
        number = number * 16 + digit(bytes[len]);
        len += 1;
    }
    (number, len)
}

fn digit(byte: u8) -> u32
    requires { is_ascii_hexdigit byte ≡ true }
    ensures value { result ≡ hexadecimal_value byte }
    ensures bound { result < 16 }
{
    let value = match byte {
        b'0'..=b'9' => byte - b'0',
        b'A'..=b'F' => byte - b'A' + 10,
        _ => byte - b'a' + 10,
    };
    value as u32
}

fn character(number: u32) -> char
    ensures { result ≡ character_of number }
{
    if number == 0 {
        return '\u{FFFD}';
    }
    match char::from_u32(number) {
        Some(character) => character,
        None => '\u{FFFD}',
    }
}

// What is behind the white space at the beginning of a text, if it begins with one.
fn behind_blank(text: &str) -> &str
    ensures value { result.now ≡ without_blank text.now }
    ensures bound { length result.now ≤ length text.now }
{
    match text.as_bytes().first() {
        Some(byte) if byte.is_ascii_whitespace() => &text[1..],
        _ => text,
    }
}
