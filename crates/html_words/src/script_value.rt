// The types of scripts as they are written in tags: values in which references are not undone yet.
ghost use Rattle.std.specs.Prelude.{◌≡◌, ◌≤◌, ◌<◌, true, map, length, IfSome, option_map};
ghost use Rattle.place_core.specs.page.References.{Closed, undone};
ghost use Rattle.place_core.specs.page.Words.{is_script_type};
ghost use Rattle.place_core.specs.page.Words as words_spec;
ghost use Rattle.html_words.specs.ScriptTypes.{undone_value};
ghost use Rattle.html_words.specs.ScriptTypes as spec;

use crate::character::next_in_value;
use crate::script::SCRIPT_TYPES;

/// Whether a script element holds a script or JSON, where its `type` is written so in a tag, without quotes. The value is whole.
/// The answer is that of `script_type` for the value with its references undone. (HTML Standard, sections 4.12.1 and 13.2.5.72
/// to 13.2.5.80.) Does not allocate, and takes time linear in the value.
pub fn script_type_in_value(value: &[u8]) -> bool
    ensures { result ≡ is_script_type (undone true Closed value.now) }
{
    is_any_type(after_white(value), &SCRIPT_TYPES)
}

// Whether a value is one of these words, which are in lower case, up to white space and parameters at its end.
fn is_any_type(value: &[u8], words: &[&[u8]]) -> bool
    ensures { result ≡ spec.is_any_type (map (λ word. word.now) words.now)
        (undone_value value.now) }
{
    for word in words {
        if is_type_word(value, word) {
            return true;
        }
    }
    false
}

// Whether a value is this word, which is in lower case, up to white space and parameters at its end.
fn is_type_word(value: &[u8], word: &[u8]) -> bool
    ensures { result ≡ spec.is_type_word word.now (undone_value value.now) }
{
    let mut rest = value;
    for letter in word {
        match first_ascii(rest) {
            None => return false,
            Some((byte, after)) => {
                if byte.to_ascii_lowercase() != *letter {
                    return false;
                }
                rest = after;
            }
        }
    }
    is_type_end(rest)
}

// Whether only white space stands before the first semicolon of a value, or before its end.
fn is_type_end(value: &[u8]) -> bool
    ensures { result ≡ spec.is_type_end (undone_value value.now) }
{
    let mut rest = value;
    while let Some((byte, after)) = first_ascii(rest) {
        if byte == b';' {
            return true;
        }
        if !byte.is_ascii_whitespace() {
            return false;
        }
        rest = after;
    }
    rest.is_empty()
}

// What stands after the white space at the beginning of a value.
fn after_white(value: &[u8]) -> &[u8]
    ensures { undone_value result.now ≡ words_spec.trimmed_start (undone_value value.now) }
{
    let mut rest = value;
    while let Some((byte, after)) = first_ascii(rest) {
        if !byte.is_ascii_whitespace() {
            return rest;
        }
        rest = after;
    }
    rest
}

// The first byte of a value with its references undone, where it is of ASCII, and what stands after it as it is written.
fn first_ascii(value: &[u8]) -> Option<(u8, &[u8])>
    ensures first { option_map (λ first. (first.0, undone_value first.1.now)) result
        ≡ spec.first_ascii (undone_value value.now) }
    ensures less { IfSome result (λ first. length first.1.now < length value.now) }
{
    match reference_or_byte(value) {
        None => None,
        Some((code, len)) => {
            if code >= 128 {
                return None;
            }
            let (_, rest) = value.split_at(len);
            Some((code as u8, rest))
        }
    }
}

// The character of the reference with which a value begins, or else its first byte, and how many bytes either takes.
fn reference_or_byte(value: &[u8]) -> Option<(u32, usize)>
    ensures first { result ≡ spec.reference_or_byte value.now }
    ensures some { IfSome result (λ first. 1 ≤ first.1) }
    ensures bound { IfSome result (λ first. first.1 ≤ length value.now) }
{
    match value.split_first() {
        None => None,
        Some((byte, _)) => {
            if *byte == b'&' {
                return next_in_value(value, false);
            }
            Some((u32::from(*byte), 1))
        }
    }
}
