ghost use Rattle.std.specs.Prelude.{◌≡◌, ◌++◌, ◌+◌, ◌<◌, true, false, take, drop, map, length, get_or, None, Some, IfOk, IfSome, MatchOption};
ghost use Rattle.std.specs.Char.{to_ascii_lowercase};
ghost use Rattle.page_url.specs.ShownSchemes.{shown_scheme};
ghost use Rattle.url_lexer.specs.SchemeOf as spec;

use crate::scheme::Scheme;
use page_io::{Memory, Text};
use std::alloc::Global;
use url_lexer::{UrlClass, url_class_of};

/// The scheme of a URL: what stands before the first `:` that no `/`, `?` or `#` precedes, without leading bytes up to space and
/// without tab, LF and CR, in lower case; or none. It may be empty, and need not be one that is registered. Takes time in
/// proportion to the text. Fails only if allocation fails. (RFC 3986, section 3.1; URL Standard, section 4.4, "scheme start state"
/// and "scheme state".)
pub fn read_scheme(alloc: Global, text: &str) -> Result<Scheme, Memory>
    ensures { IfOk result (λ scheme. scheme ≡ shown_scheme (spec.scheme_of text.now)) }
{
    match front_of_colon(text) {
        None => Ok(Scheme::Nothing),
        Some(front) => {
            let name = letters_of(alloc, trimmed(front))?;
            Ok(Scheme::Named(name))
        }
    }
}

// What stands before the first `:` that no `/`, `?` or `#` precedes.
fn front_of_colon(text: &str) -> Option<&str>
    ensures { MatchOption result (spec.front_of_colon text.now ≡ None)
        (λ front. spec.front_of_colon text.now ≡ Some front.now) }
{
    match colon_at(text.as_bytes()) {
        None => None,
        Some(at) => {
            let (front, _) = text.split_at(at);
            Some(front)
        }
    }
}

// The place of that `:`.
fn colon_at(bytes: &[u8]) -> Option<usize>
    ensures front { MatchOption result (spec.front_of_colon bytes.now ≡ None)
        (λ at. spec.front_of_colon bytes.now ≡ Some (take at bytes.now)) }
    ensures inside { IfSome result (λ at. at < length bytes.now) }
    ensures ascii { IfSome result (λ at. get_or bytes.now at 0 < 128) }
{
    for (at, byte) in bytes.iter().enumerate() {
        match url_class_of(*byte) {
            UrlClass::Colon => return Some(at),
            UrlClass::Slash | UrlClass::QueryMark => return None,
            _ => {}
        }
    }
    None
}

// A text without leading bytes up to space.
fn trimmed(text: &str) -> &str
    ensures { result.now ≡ spec.trimmed text.now }
{
    let mut rest = text;
    while begins_blank(rest.as_bytes()) {
        let (_, behind) = rest.split_at(1);
        rest = behind;
    }
    rest
}

// Whether the first byte is at most a space.
fn begins_blank(bytes: &[u8]) -> bool
    ensures blank { result ≡ true → spec.trimmed bytes.now ≡ spec.trimmed (drop 1 bytes.now) }
    ensures inside { result ≡ true → 0 < length bytes.now }
    ensures ascii { result ≡ true → get_or bytes.now 0 0 < 128 }
    ensures whole { result ≡ false → spec.trimmed bytes.now ≡ bytes.now }
{
    if bytes.is_empty() {
        return false;
    }
    match url_class_of(bytes[0]) {
        UrlClass::TabOrNewline => true,
        UrlClass::ControlOrSpace => true,
        _ => false,
    }
}

// A text without tab, LF and CR, in lower case.
fn letters_of(alloc: Global, text: &str) -> Result<Text, Memory>
    ensures { IfOk result (λ letters. letters ≡ spec.letters_of text.now) }
{
    let mut out = String::new(alloc);
    let mut rest = text;
    while let Some(at) = left_out_at(rest.as_bytes()) {
        let (run, behind) = rest.split_at(at);
        out.push_str(run)?;
        let (_, after) = behind.split_at(1);
        rest = after;
    }
    out.push_str(rest)?;
    out.make_ascii_lowercase();
    Ok(Text::from(out))
}

// The place of the first tab, LF or CR.
fn left_out_at(bytes: &[u8]) -> Option<usize>
    ensures letters { MatchOption result (spec.letters_of bytes.now ≡ map to_ascii_lowercase bytes.now)
        (λ at. spec.letters_of bytes.now
        ≡ map to_ascii_lowercase (take at bytes.now) ++ spec.letters_of (drop (at + 1) bytes.now)) }
    ensures inside { IfSome result (λ at. at < length bytes.now) }
    ensures ascii { IfSome result (λ at. get_or bytes.now at 0 < 128) }
{
    for (at, byte) in bytes.iter().enumerate() {
        match url_class_of(*byte) {
            UrlClass::TabOrNewline => return Some(at),
            _ => {}
        }
    }
    None
}
