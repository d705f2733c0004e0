// Character references (HTML Standard, sections 13.2.5.72 to 13.2.5.80 and 13.5), by looking ahead.
ghost use Rattle.std.specs.Prelude.{◌≡◌, ◌≤◌, length};
ghost use Rattle.std.specs.Char.{is_ascii_alphanumeric, is_ascii_digit, is_ascii_hexdigit};
ghost use Rattle.std.specs.List.{list_all, prefix_len};
ghost use Rattle.place_core.specs.page.Characters as spec;

use crate::names::{named, short_prefix, short_whole};
use crate::number::numbered_in;

/// An ampersand that begins no reference: itself, one byte.
pub const ITSELF: (u32, usize) = ('&' as u32, 1);

/// The character of the reference before whose bytes an ampersand stands, in the value of an attribute or in text, and how
/// many bytes it takes with the ampersand.
pub fn reference_at(attribute: bool, bytes: &[u8]) -> (u32, usize)
    ensures { result ≡ spec.reference_at attribute bytes.now }
{
    match bytes.split_first() {
        None => ITSELF,
        Some((byte, rest)) => {
            if *byte == b'#' {
                return hashed_at(rest);
            }
            if byte.is_ascii_alphanumeric() {
                let (name, after) = bytes.split_at(name_len(bytes));
                return name_at(attribute, name, after);
            }
            ITSELF
        }
    }
}

/// Whether all that stands after an ampersand is a reference that only the end of the bytes breaks off.
pub fn is_broken_off(bytes: &[u8]) -> bool
    ensures { result ≡ spec.is_broken_off bytes.now }
{
    match bytes.split_first() {
        None => true,
        Some((byte, rest)) => {
            if *byte == b'#' {
                return is_broken_number(rest);
            }
            are_letters_or_digits(bytes)
        }
    }
}

fn is_broken_number(bytes: &[u8]) -> bool
    ensures { result ≡ spec.is_broken_number bytes.now }
{
    match bytes.split_first() {
        None => true,
        Some((byte, rest)) => {
            if *byte == b'X' || *byte == b'x' {
                return are_hexadecimal(rest);
            }
            are_decimal(bytes)
        }
    }
}

// A name, and what stands after it.
fn name_at(attribute: bool, name: &[u8], after: &[u8]) -> (u32, usize)
    ensures { result ≡ spec.reference_name_at attribute name.now after.now }
{
    match after.split_first() {
        None => short_at(attribute, false, name),
        Some((byte, _)) => {
            if *byte == b';' {
                return (named(name), name.len() + 2);
            }
            short_at(attribute, *byte == b'=', name)
        }
    }
}

// A name that no semicolon ends, before an equals sign or not.
fn short_at(attribute: bool, equals: bool, name: &[u8]) -> (u32, usize)
    ensures { result ≡ spec.short_at attribute equals name.now }
{
    if !attribute {
        return short_prefix(name);
    }
    if equals {
        return ITSELF;
    }
    short_whole(name)
}

// What stands after `&#`.
fn hashed_at(bytes: &[u8]) -> (u32, usize)
    ensures { result ≡ spec.hashed_at bytes.now }
{
    match bytes.split_first() {
        None => ITSELF,
        Some((byte, rest)) => {
            if *byte == b'X' || *byte == b'x' {
                let (digits, after) = rest.split_at(hexadecimal_len(rest));
                return number_from(16, 3, digits, after);
            }
            let (digits, after) = bytes.split_at(decimal_len(bytes));
            number_from(10, 2, digits, after)
        }
    }
}

// A number in a base, with how many bytes stand before its digits, and what stands after them.
fn number_from(base: u32, prefix: usize, digits: &[u8], after: &[u8]) -> (u32, usize)
    requires base { 1 ≤ base }
    requires most { base ≤ 16 }
    requires prefix { prefix ≤ 3 }
    ensures { result ≡ spec.number_from base prefix digits.now after.now }
{
    match digits.split_first() {
        None => ITSELF,
        Some(_) => {
            let len = prefix + (digits.len() + semicolon_len(after));
            (numbered_in(base, digits), len)
        }
    }
}

fn semicolon_len(bytes: &[u8]) -> usize
    ensures len { result ≡ spec.semicolon_len bytes.now }
    ensures bound { result ≤ 1 }
{
    match bytes.split_first() {
        None => 0,
        Some((byte, _)) => { if *byte == b';' { 1 } else { 0 } }
    }
}

fn name_len(bytes: &[u8]) -> usize
    ensures len { result ≡ prefix_len is_ascii_alphanumeric bytes.now }
    ensures bound { result ≤ length bytes.now }
{
    bytes
        .iter()
        .take_while(|byte| byte.is_ascii_alphanumeric())
        .count()
}

fn decimal_len(bytes: &[u8]) -> usize
    ensures len { result ≡ prefix_len is_ascii_digit bytes.now }
    ensures bound { result ≤ length bytes.now }
{
    bytes
        .iter()
        .take_while(|byte| byte.is_ascii_digit())
        .count()
}

fn hexadecimal_len(bytes: &[u8]) -> usize
    ensures len { result ≡ prefix_len is_ascii_hexdigit bytes.now }
    ensures bound { result ≤ length bytes.now }
{
    bytes
        .iter()
        .take_while(|byte| byte.is_ascii_hexdigit())
        .count()
}

fn are_letters_or_digits(bytes: &[u8]) -> bool
    ensures { result ≡ list_all is_ascii_alphanumeric bytes.now }
{
    bytes.iter().all(|byte| byte.is_ascii_alphanumeric())
}

fn are_decimal(bytes: &[u8]) -> bool
    ensures { result ≡ list_all is_ascii_digit bytes.now }
{
    bytes.iter().all(|byte| byte.is_ascii_digit())
}

fn are_hexadecimal(bytes: &[u8]) -> bool
    ensures { result ≡ list_all is_ascii_hexdigit bytes.now }
{
    bytes.iter().all(|byte| byte.is_ascii_hexdigit())
}
