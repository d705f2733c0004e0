// What stands at the beginning of bytes.
ghost use Rattle.std.specs.Prelude.{◌≡◌, ◌≤◌, length, take};
ghost use Rattle.std.specs.List.{prefix_len, suffix_len};
ghost use Rattle.tpl_token.specs.Characters.{first_is, is_other, is_sign, is_word_byte, is_word_start};
ghost use Rattle.std.specs.Char.{is_ascii_digit};
ghost use Rattle.tpl_token.specs.Characters as spec;
ghost use Rattle.tpl_token.specs.Texts as texts;

use memchr::memchr;

/// Whether the bytes begin with a mark.
pub fn begins(mark: &[u8], bytes: &[u8]) -> bool
    ensures { result ≡ spec.begins mark.now bytes.now }
{
    bytes.starts_with(mark)
}

/// How many bytes stand before the first offset where the mark begins, all of them where it begins nowhere.
pub fn bytes_before(mark: &[u8; 2], bytes: &[u8]) -> usize
    ensures len { result ≡ texts.bytes_before mark.now bytes.now }
    ensures bound { result ≤ length bytes.now }
{
    let mut at = 0;
    while at < bytes.len() {
        let (_, rest) = bytes.split_at(at);
        let run = bytes_until(mark[0], rest);
        let (_, found) = rest.split_at(run);
        if begins(mark, found) {
            return at + run;
        }
        if found.is_empty() {
            return bytes.len();
        }
        at += run + 1;
    }
    at
}

/// How many bytes stand before the first one of this value, all of them where there is none.
pub fn bytes_until(byte: u8, bytes: &[u8]) -> usize
    ensures len { result ≡ prefix_len (is_other byte) bytes.now }
    ensures bound { result ≤ length bytes.now }
{
    match memchr(byte, bytes) {
        Some(run) => run,
        None => bytes.len(),
    }
}

/// How many bytes of white space stand at the beginning.
pub fn white_len(bytes: &[u8]) -> usize
    ensures len { result ≡ prefix_len spec.is_white bytes.now }
    ensures bound { result ≤ length bytes.now }
{
    bytes.iter().take_while(|byte| is_white(**byte)).count()
}

/// How many bytes of white space stand at the end.
pub fn white_end_len(bytes: &[u8]) -> usize
    ensures len { result ≡ suffix_len spec.is_white bytes.now }
    ensures bound { result ≤ length bytes.now }
{
    bytes
        .iter()
        .rev()
        .take_while(|byte| is_white(**byte))
        .count()
}

/// How many letters, digits and `_` stand at the beginning.
pub fn word_len(bytes: &[u8]) -> usize
    ensures len { result ≡ prefix_len is_word_byte bytes.now }
    ensures bound { result ≤ length bytes.now }
{
    bytes.iter().take_while(|byte| is_word(**byte)).count()
}

/// Whether white space stands at the beginning.
pub fn begins_white(bytes: &[u8]) -> bool
    ensures { result ≡ first_is spec.is_white bytes.now }
{
    bytes.first().is_some_and(|byte| is_white(*byte))
}

/// Whether a letter or `_` stands at the beginning.
pub fn begins_word(bytes: &[u8]) -> bool
    ensures { result ≡ first_is is_word_start bytes.now }
{
    bytes
        .first()
        .is_some_and(|byte| byte.is_ascii_alphabetic() || *byte == b'_')
}

/// Whether a digit stands at the beginning.
pub fn begins_digit(bytes: &[u8]) -> bool
    ensures { result ≡ first_is is_ascii_digit bytes.now }
{
    bytes.first().is_some_and(|byte| byte.is_ascii_digit())
}

/// Whether `+` or `-` stands at the beginning.
pub fn begins_sign(bytes: &[u8]) -> bool
    ensures { result ≡ first_is is_sign bytes.now }
{
    bytes
        .first()
        .is_some_and(|byte| *byte == b'+' || *byte == b'-')
}

fn is_white(byte: u8) -> bool
    ensures { result ≡ spec.is_white byte }
{
    byte == b' ' || byte == b'\t' || byte == b'\r' || byte == b'\n'
}

fn is_word(byte: u8) -> bool
    ensures { result ≡ is_word_byte byte }
{
    byte.is_ascii_alphanumeric() || byte == b'_'
}
