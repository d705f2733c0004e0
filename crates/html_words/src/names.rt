// The characters that have names, in the profile (HTML Standard, section 13.5).
ghost use Rattle.std.specs.Prelude.{◌≡◌, map};
ghost use Rattle.place_core.specs.page.Characters.{begins_at, whole_at};
ghost use Rattle.place_core.specs.page.References.{names, reference_row, short_names};
ghost use Rattle.html_words.specs.ShortNames as short;
ghost use Rattle.place_core.specs.page.References as spec;

use crate::number::REPLACEMENT;
use crate::reference::ITSELF;

// The names that need no semicolon.
const SHORT_NAMES: [(&[u8], u32); 9] = [
    (b"amp", 38),
    (b"lt", 60),
    (b"gt", 62),
    (b"quot", 34),
    (b"AMP", 38),
    (b"LT", 60),
    (b"GT", 62),
    (b"QUOT", 34),
    (b"nbsp", 160),
];

/// The character of a name that a semicolon ends.
pub fn named(name: &[u8]) -> u32
    ensures { result ≡ spec.named_in names name.now }
{
    named_in(
        name,
        &[
            (b"Tab", 9),
            (b"NewLine", 10),
            (b"excl", 33),
            (b"quot", 34),
            (b"QUOT", 34),
            (b"num", 35),
            (b"dollar", 36),
            (b"percnt", 37),
            (b"amp", 38),
            (b"AMP", 38),
            (b"apos", 39),
            (b"lpar", 40),
            (b"rpar", 41),
            (b"ast", 42),
            (b"midast", 42),
            (b"plus", 43),
            (b"comma", 44),
            (b"period", 46),
            (b"sol", 47),
            (b"colon", 58),
            (b"semi", 59),
            (b"lt", 60),
            (b"LT", 60),
            (b"equals", 61),
            (b"gt", 62),
            (b"GT", 62),
            (b"quest", 63),
            (b"commat", 64),
            (b"lsqb", 91),
            (b"lbrack", 91),
            (b"bsol", 92),
            (b"rsqb", 93),
            (b"rbrack", 93),
            (b"Hat", 94),
            (b"lowbar", 95),
            (b"UnderBar", 95),
            (b"grave", 96),
            (b"DiacriticalGrave", 96),
            (b"lcub", 123),
            (b"lbrace", 123),
            (b"verbar", 124),
            (b"vert", 124),
            (b"VerticalLine", 124),
            (b"rcub", 125),
            (b"rbrace", 125),
            (b"nbsp", 160),
        ],
    )
}

/// In text: the short name that stands at the beginning of a name, and how many bytes it takes with the ampersand.
pub fn short_prefix(name: &[u8]) -> (u32, usize)
    ensures { result ≡ begins_at short_names name.now }
{
    prefix_in(name, &SHORT_NAMES)
}

/// In the value of an attribute: the short name that is all of a name, and how many bytes it takes with the ampersand.
pub fn short_whole(name: &[u8]) -> (u32, usize)
    ensures { result ≡ whole_at short_names name.now }
{
    whole_in(name, &SHORT_NAMES)
}

/// Its character, where it is one.
pub fn short_name(name: &[u8]) -> Option<u32>
    ensures { result ≡ short.short_in short_names name.now }
{
    short_in(name, &SHORT_NAMES)
}

fn named_in(name: &[u8], rows: &[(&[u8], u32)]) -> u32
    ensures { result ≡ spec.named_in (map (λ r. reference_row r.0.now r.1) rows.now) name.now }
{
    for row in rows {
        if row.0 == name {
            return row.1;
        }
    }
    REPLACEMENT
}

fn prefix_in(name: &[u8], rows: &[(&[u8], u32)]) -> (u32, usize)
    ensures { result ≡ begins_at (map (λ r. reference_row r.0.now r.1) rows.now) name.now }
{
    for row in rows {
        if name.starts_with(row.0) {
            return (row.1, row.0.len() + 1);
        }
    }
    ITSELF
}

fn whole_in(name: &[u8], rows: &[(&[u8], u32)]) -> (u32, usize)
    ensures { result ≡ whole_at (map (λ r. reference_row r.0.now r.1) rows.now) name.now }
{
    for row in rows {
        if row.0 == name {
            return (row.1, name.len() + 1);
        }
    }
    ITSELF
}

fn short_in(name: &[u8], rows: &[(&[u8], u32)]) -> Option<u32>
    ensures { result ≡ short.short_in (map (λ r. reference_row r.0.now r.1) rows.now) name.now }
{
    for row in rows {
        if row.0 == name {
            return Some(row.1);
        }
    }
    None
}
