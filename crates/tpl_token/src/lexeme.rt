ghost use Rattle.std.specs.Prelude.{◌≡◌, ◌+◌, ◌<◌, ◌≤◌, drop, length, IfOk};
ghost use Rattle.tpl_token.specs.Answers.{IsOrOutOfMemory, max_template_text};
ghost use Rattle.tpl_token.specs.Scanning.{dot_found, mark_found};
ghost use Rattle.tpl_token.specs.Refusals as spec;
ghost use Rattle.tpl_token.specs.Scanning as scanning;

use crate::bytes::{begins, begins_digit, begins_sign, begins_word, word_len};
use crate::number::number_at;
use crate::refused::TokenRefused;
use crate::string::{quoted_at, raw_at};
use crate::token::TokenKind;
use std::alloc::Global;

/// The token of an action at an offset where no white space stands, and its length. Where none stands there, the error says
/// what does.
pub fn lexeme_at(alloc: Global, text: &str, at: usize) -> Result<(TokenKind, usize), TokenRefused>
    requires limit { length text.now ≤ max_template_text }
    requires within { at < length text.now }
    ensures found { IsOrOutOfMemory result (scanning.lexeme_at at (drop at text.now)) }
    ensures bound { IfOk result (λ found. at + found.1 ≤ length text.now) }
{
    let (_, rest) = text.as_bytes().split_at(at);
    let (_, after) = rest.split_at(1);
    if begins_word(rest) {
        return Ok((TokenKind::Name, word_len(rest)));
    }
    if begins_number(rest) {
        return number_at(at as u32, rest);
    }
    if begins(b"\"", rest) {
        return quoted_at(alloc, text, at);
    }
    if begins(b"`", rest) {
        return raw_at(alloc, text, at);
    }
    if begins(b".", rest) {
        return Ok(dot(name_len(after)));
    }
    if begins(b"$", rest) {
        return Ok((TokenKind::Variable, name_len(after) + 1));
    }
    mark_at(at as u32, rest)
}

// Whether a digit, a sign, or `.` and a digit stand at the beginning.
fn begins_number(bytes: &[u8]) -> bool
    ensures { result ≡ spec.begins_number bytes.now }
{
    if begins_digit(bytes) || begins_sign(bytes) {
        return true;
    }
    if !begins(b".", bytes) {
        return false;
    }
    let (_, after) = bytes.split_at(1);
    begins_digit(after)
}

// The length of the name at the beginning, 0 where there is none.
fn name_len(bytes: &[u8]) -> usize
    ensures len { result ≡ scanning.name_len bytes.now }
    ensures bound { result ≤ length bytes.now }
{
    if begins_word(bytes) {
        return word_len(bytes);
    }
    0
}

// A `.` with that many bytes of a name after it.
fn dot(name: usize) -> (TokenKind, usize)
    requires { name ≤ max_template_text }
    ensures found { result ≡ dot_found name }
    ensures bound { result.1 ≤ name + 1 }
{
    if name == 0 {
        return (TokenKind::Dot, 1);
    }
    (TokenKind::Field, name + 1)
}

// A token of one or two characters that are always the same.
fn mark_at(at: u32, bytes: &[u8]) -> Result<(TokenKind, usize), TokenRefused>
    ensures found { IsOrOutOfMemory result (mark_found at bytes.now) }
    ensures bound { IfOk result (λ found. found.1 ≤ length bytes.now) }
{
    if begins(b":=", bytes) {
        return Ok((TokenKind::Declare, 2));
    }
    if begins(b"=", bytes) {
        return Ok((TokenKind::Assign, 1));
    }
    if begins(b"|", bytes) {
        return Ok((TokenKind::Bar, 1));
    }
    if begins(b",", bytes) {
        return Ok((TokenKind::Comma, 1));
    }
    if begins(b"(", bytes) {
        return Ok((TokenKind::Left, 1));
    }
    if begins(b")", bytes) {
        return Ok((TokenKind::Right, 1));
    }
    Err(TokenRefused::BadCharacter(at))
}
