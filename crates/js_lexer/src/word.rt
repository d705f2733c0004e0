ghost use Rattle.std.specs.Prelude.{◌≡◌, map};
ghost use Rattle.js_lexer.specs.Words as spec;

use crate::sense::Sense;

/// What a slash would be after a word. (ECMA-262, section 12.7.2, for the words.)
pub fn sense_after(word: &[u8]) -> Sense
    ensures { result ≡ spec.sense_after word.now }
{
    if is_operator_word(word) {
        return Sense::Re;
    }
    if is_unclear_word(word) {
        return Sense::Brace;
    }
    Sense::Div
}

// A word that an expression follows.
fn is_operator_word(word: &[u8]) -> bool
    ensures { result ≡ spec.is_among_words spec.operator_words word.now }
{
    is_among(
        word,
        &[
            b"break",
            b"case",
            b"continue",
            b"delete",
            b"do",
            b"else",
            b"finally",
            b"in",
            b"instanceof",
            b"return",
            b"throw",
            b"try",
            b"typeof",
            b"void",
        ],
    )
}

// A word that is sometimes a name.
fn is_unclear_word(word: &[u8]) -> bool
    ensures { result ≡ spec.is_among_words spec.unclear_words word.now }
{
    is_among(
        word,
        &[b"await", b"debugger", b"default", b"new", b"of", b"yield"],
    )
}

fn is_among(word: &[u8], words: &[&[u8]]) -> bool
    ensures { result ≡ spec.is_among_words (map (λ other. other.now) words.now) word.now }
{
    for other in words {
        if word == *other {
            return true;
        }
    }
    false
}
