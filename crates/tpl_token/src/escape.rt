ghost use Rattle.std.specs.Prelude.{◌≡◌, ◌≤◌, IfSome, drop, length, option_and_then};
ghost use Rattle.tpl_token.specs.Numbers as spec;
ghost use Rattle.tpl_token.specs.Strings as strings;
ghost use Rattle.tpl_token.specs.Scanning as scanning;

use crate::bytes::begins;
use crate::number::numeral;

/// The escape that the bytes after a backslash begin with: its character, and its length.
pub fn escape_at(bytes: &[u8]) -> Option<(char, usize)>
    ensures found { result ≡ scanning.escape_at bytes.now }
    ensures bound { IfSome result (λ found. found.1 ≤ length bytes.now) }
{
    let len = escape_len(bytes);
    if bytes.len() < len {
        return None;
    }
    let (escape, _) = bytes.split_at(len);
    match escaped(escape) {
        Some(character) => Some((character, len)),
        None => None,
    }
}

// How long an escape with this beginning is.
fn escape_len(bytes: &[u8]) -> usize
    ensures { result ≡ scanning.escape_len bytes.now }
{
    if begins(b"x", bytes) {
        return 3;
    }
    if begins(b"u", bytes) {
        return 5;
    }
    1
}

// The character that an escape stands for.
fn escaped(bytes: &[u8]) -> Option<char>
    ensures { result ≡ strings.escaped_character bytes.now }
{
    if begins(b"x", bytes) {
        if bytes.len() == 3 {
            return coded(128, bytes);
        }
        return None;
    }
    if begins(b"u", bytes) {
        if bytes.len() == 5 {
            return coded(65536, bytes);
        }
        return None;
    }
    short_escape(bytes)
}

// The character below a limit whose code stands after the first byte, in hexadecimal digits.
fn coded(limit: u64, bytes: &[u8]) -> Option<char>
    requires some { 1 ≤ length bytes.now }
    requires limit { limit ≤ 65536 }
    ensures { let code = spec.numeral 16 (drop 1 bytes.now)
        in result ≡ option_and_then (strings.character limit) code }
{
    let (_, digits) = bytes.split_at(1);
    match numeral(16, digits) {
        Some(code) => character(limit, code),
        None => None,
    }
}

fn character(limit: u64, code: u64) -> Option<char>
    requires limit { limit ≤ 65536 }
    ensures { result ≡ strings.character limit code }
{
    if code < limit {
        return char::from_u32(code as u32);
    }
    None
}

fn short_escape(bytes: &[u8]) -> Option<char>
    ensures { result ≡ strings.short_escape bytes.now }
{
    match bytes {
        b"n" => Some('\n'),
        b"r" => Some('\r'),
        b"t" => Some('\t'),
        b"\\" => Some('\\'),
        b"\"" => Some('"'),
        _ => None,
    }
}
