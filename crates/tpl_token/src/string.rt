ghost use Rattle.std.specs.Prelude.{◌≡◌, ◌+◌, ◌<◌, ◌≤◌, false, drop, take, not, ◌==◌, length, slice_index, string_bytes, IfOk};
ghost use Rattle.std.specs.List.{prefix_len};
ghost use Rattle.std.specs.Str.{IsCharBoundary};
ghost use Rattle.tpl_token.specs.Characters.{first_is};
ghost use Rattle.tpl_token.specs.Strings.{is_plain_byte};
ghost use Rattle.tpl_token.specs.Scanning.{ReadsOn, quoted, raw_found, string_found};
ghost use Rattle.tpl_token.specs.Answers.{IsOrOutOfMemory, max_template_text};
ghost use Rattle.tpl_token.specs.Scanning as spec;

use crate::bytes::{begins, bytes_until};
use crate::escape::escape_at;
use crate::refused::TokenRefused;
use crate::token::TokenKind;
use memchr::memchr3;
use page_io::{Memory, Text};
use std::alloc::Global;

/// The string in double quotes at an offset where a quote stands, and its length. `UnclosedString` comes where its line or
/// the text ends first, `BadEscape` where a backslash in it begins no escape.
pub fn quoted_at(
    alloc: Global,
    text: &str,
    start: usize,
) -> Result<(TokenKind, usize), TokenRefused>
    requires limit { length text.now ≤ max_template_text }
    requires within { start < length text.now }
    requires quote { slice_index text.now start ≡ 34 }
    ensures found { IsOrOutOfMemory result
        (string_found start (quoted 0 (drop (start + 1) text.now))) }
    ensures bound { IfOk result (λ found. start + found.1 ≤ length text.now) }
{
    let mut value = String::new(alloc);
    let mut at = start + 1;
    while at < text.len() {
        at = push_plain(&mut value, text, at)?;
        let (_, rest) = text.as_bytes().split_at(at);
        if begins(b"\"", rest) {
            return Ok((TokenKind::Str(Text::from(value)), at + 1 - start));
        }
        if !begins(b"\\", rest) {
            return Err(TokenRefused::UnclosedString(start as u32));
        }
        let (_, escape) = rest.split_at(1);
        match escape_at(escape) {
            Some((character, len)) => {
                value.push(character)?;
                at += 1 + len;
            }
            None => return Err(TokenRefused::BadEscape(at as u32)),
        }
    }
    Err(TokenRefused::UnclosedString(start as u32))
}

// Copies the bytes from an offset on that stand for themselves, and says where they end.
fn push_plain(value: &mut String, text: &str, at: usize) -> Result<usize, Memory>
    requires within { at ≤ length text.now }
    requires cut { IsCharBoundary text.now at }
    ensures from { IfOk result (λ next. at ≤ next) }
    ensures to { IfOk result (λ next. next ≤ length text.now) }
    ensures cut { IfOk result (IsCharBoundary text.now) }
    ensures stops { IfOk result (λ next. first_is is_plain_byte (drop next text.now) ≡ false) }
    ensures copied { IfOk result (λ next.
        ReadsOn text.now (string_bytes value.old) at (string_bytes value.new) next) }
{
    let (_, rest) = text.as_bytes().split_at(at);
    let run = plain_len(rest);
    value.push_str(&text[at..at + run])?;
    Ok(at + run)
}

// How many bytes stand for themselves.
fn plain_len(bytes: &[u8]) -> usize
    ensures len { result ≡ prefix_len is_plain_byte bytes.now }
    ensures bound { result ≤ length bytes.now }
{
    match memchr3(b'"', b'\\', b'\n', bytes) {
        Some(run) => run,
        None => bytes.len(),
    }
}

/// The string between backquotes at an offset where one stands, and its length. `UnclosedString` comes where the text ends
/// first.
pub fn raw_at(alloc: Global, text: &str, start: usize) -> Result<(TokenKind, usize), TokenRefused>
    requires limit { length text.now ≤ max_template_text }
    requires within { start < length text.now }
    requires quote { slice_index text.now start ≡ 96 }
    ensures found { IsOrOutOfMemory result (raw_found start (drop (start + 1) text.now)) }
    ensures bound { IfOk result (λ found. start + found.1 ≤ length text.now) }
{
    let (_, body) = text.as_bytes().split_at(start + 1);
    let len = bytes_until(b'`', body);
    if len < body.len() {
        let value = without_returns(alloc, &text[start + 1..start + 1 + len])?;
        return Ok((TokenKind::Str(Text::from(value)), len + 2));
    }
    Err(TokenRefused::UnclosedString(start as u32))
}

// A copy without carriage returns.
fn without_returns(alloc: Global, text: &str) -> Result<String, Memory>
    ensures { IfOk result (λ copy. string_bytes copy ≡ spec.without_returns text.now) }
{
    let mut copy = String::new(alloc);
    let mut at = 0;
    while at < text.len() {
        let (_, rest) = text.as_bytes().split_at(at);
        let run = bytes_until(b'\r', rest);
        copy.push_str(&text[at..at + run])?;
        at += run;
        if at < text.len() {
            at += 1;
        }
    }
    Ok(copy)
}
