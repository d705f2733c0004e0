ghost use Rattle.std.specs.Prelude.{◌≡◌, ◌≤◌, ◌^◌, IfOk, length};
ghost use Rattle.std.specs.Char.{is_digit};
ghost use Rattle.std.specs.List.{list_all};
ghost use Rattle.tpl_token.specs.Numbers.{below};
ghost use Rattle.tpl_token.specs.Scanning.{number_found};
ghost use Rattle.tpl_token.specs.Answers.{IsOrOutOfMemory};
ghost use Rattle.tpl_token.specs.Numbers as spec;
ghost use Rattle.tpl_token.specs.Scanning as scanning;

use crate::bytes::{begins, begins_sign, word_len};
use crate::refused::TokenRefused;
use crate::token::TokenKind;
use std::str;

/// The number at the beginning of bytes that stand at an offset, and its length. `BadNumber` comes where what begins as a number
/// is not one.
pub fn number_at(at: u32, bytes: &[u8]) -> Result<(TokenKind, usize), TokenRefused>
    ensures found { IsOrOutOfMemory result (number_found at bytes.now) }
    ensures bound { IfOk result (λ found. found.1 ≤ length bytes.now) }
{
    let len = number_len(bytes);
    let (prefix, after) = bytes.split_at(len);
    if begins(b".", after) {
        return Err(TokenRefused::BadNumber(at));
    }
    match number(prefix) {
        Some(value) => Ok((TokenKind::Number(value), len)),
        None => Err(TokenRefused::BadNumber(at)),
    }
}

// How many bytes a sign, letters, digits and `_` have.
fn number_len(bytes: &[u8]) -> usize
    ensures len { result ≡ scanning.number_len bytes.now }
    ensures bound { result ≤ length bytes.now }
{
    if begins_sign(bytes) {
        let (_, rest) = bytes.split_at(1);
        return 1 + word_len(rest);
    }
    word_len(bytes)
}

// The number that the bytes write, where they are one.
fn number(bytes: &[u8]) -> Option<i64>
    ensures { result ≡ spec.number bytes.now }
{
    match magnitude(unsigned(bytes)) {
        Some(size) => signed(begins(b"-", bytes), size),
        None => None,
    }
}

fn unsigned(bytes: &[u8]) -> &[u8]
    ensures { result.now ≡ spec.unsigned bytes.now }
{
    if begins_sign(bytes) {
        let (_, rest) = bytes.split_at(1);
        return rest;
    }
    bytes
}

// The number with its sign, where 64 bits hold it.
fn signed(negative: bool, size: u64) -> Option<i64>
    ensures { result ≡ spec.signed negative size }
{
    if negative {
        if size <= 1 << 63 {
            return Some(size.cast_signed().wrapping_neg());
        }
        return None;
    }
    i64::try_from(size).ok()
}

// The number without its sign, where 64 bits hold it.
fn magnitude(bytes: &[u8]) -> Option<u64>
    ensures { result ≡ below (2 ^ 64) (spec.magnitude bytes.now) }
{
    if begins(b"0x", bytes) {
        let (_, digits) = bytes.split_at(2);
        return numeral(16, digits);
    }
    if begins(b"0", bytes) && bytes.len() > 1 {
        return None;
    }
    numeral(10, bytes)
}

/// The number that digits of a base write, where they are digits, and 64 bits hold it.
pub fn numeral(base: u32, digits: &[u8]) -> Option<u64>
    requires least { 2 ≤ base }
    requires most { base ≤ 36 }
    ensures { result ≡ below (2 ^ 64) (spec.numeral base digits.now) }
{
    if !are_digits(base, digits) {
        return None;
    }
    match str::from_utf8(digits) {
        Ok(digits) => u64::from_str_radix(digits, base).ok(),
        Err(_) => None,
    }
}

fn are_digits(base: u32, bytes: &[u8]) -> bool
    requires least { 2 ≤ base }
    requires most { base ≤ 36 }
    ensures { result ≡ list_all (λ b. is_digit b base) bytes.now }
{
    bytes.iter().all(|byte| (*byte as char).is_digit(base))
}
