ghost use Rattle.std.specs.Prelude.{◌≡◌, ◌<◌, true, length};
ghost use Rattle.url_lexer.specs.Prefixes.{is_letter, letter_behind, prefix_of_first};
ghost use Rattle.place_core.specs.place.UrlParts.{placed_prefix};
ghost use Rattle.url_step.specs.PartSets.{next_spelled};
ghost use Rattle.url_step.specs.PartSets as spec;

use place_core::Prefix;

/// What the first character of a URL spells.
pub fn first(byte: u8) -> Prefix
    ensures { result ≡ placed_prefix (prefix_of_first byte) }
{
    match byte.to_ascii_lowercase() {
        b'j' => Prefix::Javascript(1),
        b'v' => Prefix::Vbscript(1),
        b'd' => Prefix::DataScheme(1),
        _ => Prefix::Off,
    }
}

/// Whether a byte is the letter of a word behind so many, in any case.
fn goes_on(word: &[u8], count: u8, byte: u8) -> bool
    ensures is { result ≡ is_letter (letter_behind word.now count) byte }
    ensures bound { result ≡ true → count < length word.now }
{
    match word.get(usize::from(count)) {
        Some(letter) => *letter == byte.to_ascii_lowercase(),
        None => false,
    }
}

/// What the beginning spells behind a character that is not left out.
pub fn next(prefix: Prefix, byte: u8) -> Prefix
    ensures { result ≡ next_spelled byte prefix }
{
    match prefix {
        Prefix::Javascript(n) if goes_on(b"javascript", n, byte) => Prefix::Javascript(n + 1),
        Prefix::Vbscript(n) if goes_on(b"vbscript", n, byte) => Prefix::Vbscript(n + 1),
        Prefix::DataScheme(n) if goes_on(b"data", n, byte) => Prefix::DataScheme(n + 1),
        Prefix::Differs => Prefix::Differs,
        _ => Prefix::Off,
    }
}

/// Whether the beginning is a whole word.
pub fn is_whole(prefix: Prefix) -> bool
    ensures { result ≡ spec.spells_code (Some prefix) }
{
    match prefix {
        Prefix::Javascript(n) => usize::from(n) >= b"javascript".len(),
        Prefix::Vbscript(n) => usize::from(n) >= b"vbscript".len(),
        Prefix::DataScheme(n) => usize::from(n) >= b"data".len(),
        Prefix::Off | Prefix::Differs => false,
    }
}
