ghost use Rattle.std.specs.Prelude.{◌≡◌, ◌<◌, ◌≤◌, ◌++◌, false, IfOk, OnOk, length, string_bytes};
ghost use Rattle.std.specs.List.{prefix_len};
ghost use Rattle.std.specs.Str.{IsAscii};
ghost use Rattle.css_lexer.specs.ReadBack.{IsBackInString};
ghost use Rattle.css_lexer.specs.Sanitizers as spec;
ghost use Rattle.css_lexer.specs.Urls.{urls};
ghost use Rattle.san_css.specs.Strings.{StringRestWrites, is_string_kept};

use css_lexer::{string_digits, strings_read_back};
use page_io::{Memory, Text};
use std::alloc::Global;

/// What is written for a text in a string of a style, between quotes: a backslash twice, and NUL, tab, line feed, form
/// feed, carriage return and each of `"&'()+/:;<>{}` as an escape, which is a backslash and hexadecimal digits, with a
/// blank behind them where the text ends or a hexadecimal digit or white space comes next; every other character stays.
/// There it is plain, whatever the text, and with its escapes undone it is the text, NUL as U+FFFD. Fails only if
/// allocation fails. (CSS Syntax Level 3, sections 4.3.5 and 4.3.7; CSSOM, "serialize a string".)
pub fn css_string(alloc: Global, text: &str) -> Result<Text, Memory>
    ensures written { IfOk result (λ bytes. bytes ≡ spec.css_string text.now) }
    ensures in_string { IfOk result (λ bytes. IsBackInString urls text.now bytes) }
{
    strings_read_back();
    let mut out = String::new(alloc);
    push_css_string(&mut out, text)?;
    Ok(Text::from(out))
}

/// Appends what `css_string` gives. Fails only if allocation fails, and then a part of it may be there.
pub fn push_css_string(out: &mut String, text: &str) -> Result<(), Memory>
    ensures { OnOk result (string_bytes out.new
        ≡ string_bytes out.old ++ spec.css_string text.now) }
{
    let mut rest = text;
    while !rest.is_empty() {
        rest = push_run(out, rest)?;
    }
    Ok(())
}

// Appends the run of bytes at the beginning of a text that stay, and what is written for the byte behind it. What is
// behind that is left.
fn push_run<'a>(out: &mut String, text: &'a str) -> Result<&'a str, Memory>
    requires { 0 < length text.now }
    ensures written { IfOk result (λ rest.
        StringRestWrites text.now rest.now (string_bytes out.old) (string_bytes out.new)) }
    ensures shorter { IfOk result (λ rest. length rest.now < length text.now) }
{
    let (run, behind) = text.split_at(kept_len(text.as_bytes()));
    out.push_str(run)?;
    match behind.as_bytes().first() {
        None => Ok(behind),
        Some(byte) => {
            let rest = &behind[1..];
            push_escape(out, *byte, rest.as_bytes())?;
            Ok(rest)
        }
    }
}

// How many bytes at the beginning stay as they are.
fn kept_len(bytes: &[u8]) -> usize
    ensures len { result ≡ prefix_len is_string_kept bytes.now }
    ensures bound { result ≤ length bytes.now }
{
    bytes.iter().take_while(|byte| is_kept(**byte)).count()
}

fn is_kept(byte: u8) -> bool
    ensures { result ≡ is_string_kept byte }
{
    byte != b'\\' && string_digits(byte).is_empty()
}

// Appends what is written for a byte that does not stay, before these.
fn push_escape(out: &mut String, byte: u8, behind: &[u8]) -> Result<(), Memory>
    requires { is_string_kept byte ≡ false }
    ensures { OnOk result (string_bytes out.new
        ≡ string_bytes out.old ++ spec.string_byte (spec.string_digits byte) byte behind.now) }
{
    out.push('\\')?;
    if byte == b'\\' {
        out.push('\\')?;
        return Ok(());
    }
    push_ascii(out, string_digits(byte))?;
    if goes_on_with(behind) {
        out.push(' ')?;
    }
    Ok(())
}

// Appends bytes of ASCII.
fn push_ascii(out: &mut String, bytes: &[u8]) -> Result<(), Memory>
    requires { IsAscii bytes.now }
    ensures { OnOk result (string_bytes out.new ≡ string_bytes out.old ++ bytes.now) }
{
    for byte in bytes {
        out.push(*byte as char)?;
    }
    Ok(())
}

// Whether these bytes would go on with digits before them, or nothing is known of what follows.
fn goes_on_with(bytes: &[u8]) -> bool
    ensures { result ≡ spec.goes_on_with bytes.now }
{
    match bytes {
        [] => true,
        [byte, ..] => byte.is_ascii_hexdigit() || byte.is_ascii_whitespace(),
    }
}
