// Words that a value may not have: as they stand, or as its letters, digits and `_` alone spell them.
ghost use Rattle.std.specs.Prelude.{◌≡◌, ◌<◌, length, nat_eq};
ghost use Rattle.std.specs.List.{starts_with};
ghost use Rattle.css_lexer.specs.Sanitizers as spec;

/// Whether a part stands anywhere in a text.
pub(crate) fn holds_bytes(part: &[u8], text: &[u8]) -> bool
    requires { 0 < length part.now }
    ensures { result ≡ spec.holds_word part.now text.now }
{
    for at in 0..text.len() {
        if text[at..].starts_with(part) {
            return true;
        }
    }
    false
}

/// Whether the letters, digits and `_` of a text, in lower case, spell a word anywhere.
pub(crate) fn is_spelled_in(word: &[u8], text: &[u8]) -> bool
    requires { 0 < length word.now }
    ensures { result ≡ spec.holds_word word.now (spec.style_spelled text.now) }
{
    if text.len() < word.len() {
        return false;
    }
    for at in 0..text.len() {
        if text[at].to_ascii_lowercase() == word[0] && spells(&text[at..], word) {
            return true;
        }
    }
    false
}

// Whether the letters, digits and `_` of a text, in lower case, begin with a word.
fn spells(text: &[u8], word: &[u8]) -> bool
    ensures { result ≡ starts_with nat_eq (spec.style_spelled text.now) word.now }
{
    let mut left = word;
    for byte in text {
        if !is_spelled(*byte) {
            continue;
        }
        match left {
            [] => return true,
            [first, behind @ ..] => {
                if byte.to_ascii_lowercase() != *first {
                    return false;
                }
                left = behind;
            }
        }
    }
    left.is_empty()
}

fn is_spelled(byte: u8) -> bool
    ensures { result ≡ spec.is_spelled byte }
{
    byte.is_ascii_alphanumeric() || byte == b'_'
}
