ghost use Rattle.std.specs.Prelude.{◌≡◌, ◌≤◌, ◌==◌, not, length};
ghost use Rattle.std.specs.Char.{is_ascii_whitespace};
ghost use Rattle.std.specs.List.{prefix_len, suffix_len};
ghost use Rattle.std.specs.Str.{str_to_ascii_lowercase};
ghost use Rattle.place_core.specs.page.Words.{is_script_type, script_types};
ghost use Rattle.place_core.specs.page.Words as spec;

use crate::words::is_among;

// The types of scripts and of JSON, in lower case.
pub const SCRIPT_TYPES: [&[u8]; 21] = [
    b"",
    b"module",
    b"importmap",
    b"application/ecmascript",
    b"application/javascript",
    b"application/json",
    b"application/ld+json",
    b"application/x-ecmascript",
    b"application/x-javascript",
    b"text/ecmascript",
    b"text/javascript",
    b"text/javascript1.0",
    b"text/javascript1.1",
    b"text/javascript1.2",
    b"text/javascript1.3",
    b"text/javascript1.4",
    b"text/javascript1.5",
    b"text/x-ecmascript",
    b"text/x-javascript",
    b"text/jscript",
    b"text/livescript",
];

/// Whether a script element with this `type` holds a script or JSON; with any other it holds data. (HTML Standard, section 4.12.1.)
/// Does not allocate.
pub fn script_type(value: &str) -> bool
    ensures { result ≡ is_script_type value.now }
{
    is_type(trimmed_end(trimmed_start(without_parameters(value.as_bytes()))))
}

// What stands before the first semicolon.
fn without_parameters(value: &[u8]) -> &[u8]
    ensures { result.now ≡ spec.without_parameters value.now }
{
    let (prefix, _) = value.split_at(type_len(value));
    prefix
}

// Without white space at the beginning.
fn trimmed_start(value: &[u8]) -> &[u8]
    ensures { result.now ≡ spec.trimmed_start value.now }
{
    let (_, rest) = value.split_at(white_len(value));
    rest
}

// Without white space at the end.
fn trimmed_end(value: &[u8]) -> &[u8]
    ensures { result.now ≡ spec.trimmed_end value.now }
{
    let (prefix, _) = value.split_at(value.len() - white_end_len(value));
    prefix
}

// How many bytes stand before the first semicolon.
fn type_len(value: &[u8]) -> usize
    ensures len { result ≡ prefix_len (λ b. not (b == 59)) value.now }
    ensures bound { result ≤ length value.now }
{
    value.iter().take_while(|byte| **byte != b';').count()
}

// How many bytes of white space stand at the beginning.
fn white_len(value: &[u8]) -> usize
    ensures len { result ≡ prefix_len is_ascii_whitespace value.now }
    ensures bound { result ≤ length value.now }
{
    value
        .iter()
        .take_while(|byte| byte.is_ascii_whitespace())
        .count()
}

// How many bytes of white space stand at the end.
fn white_end_len(value: &[u8]) -> usize
    ensures len { result ≡ suffix_len is_ascii_whitespace value.now }
    ensures bound { result ≤ length value.now }
{
    value
        .iter()
        .rev()
        .take_while(|byte| byte.is_ascii_whitespace())
        .count()
}

fn is_type(value: &[u8]) -> bool
    ensures { result ≡ spec.is_among script_types (str_to_ascii_lowercase value.now) }
{
    is_among(value, &SCRIPT_TYPES)
}
