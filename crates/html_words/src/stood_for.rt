// The characters that references stand for, as they are read byte by byte.
ghost use Rattle.std.specs.Prelude.{◌≡◌, ◌≤◌};
ghost use Rattle.std.specs.Char.{IsScalar};
ghost use Rattle.place_core.specs.page.References.{names, short_names};
ghost use Rattle.html_words.specs.ShortNames.{short_in};
ghost use Rattle.place_core.specs.page.References as spec;

use crate::names::{named, short_name};
use crate::number::numbered_in;

/// The character of a name that a semicolon ends; U+FFFD where the name stands for none. Does not allocate.
#[tactic(auto, using(crate::proofs::Scalars::named_scalar))]
pub fn named_char(name: &[u8]) -> char
    ensures { result ≡ spec.named_in names name.now }
{
    as_char(named(name))
}

/// The character of the number that digits in a base write. Does not allocate.
#[tactic(auto, using(crate::proofs::Scalars::numbered_scalar))]
pub fn numbered_char(base: u32, digits: &[u8]) -> char
    requires base { 1 ≤ base }
    requires most { base ≤ 16 }
    ensures { result ≡ spec.numbered_reference (spec.number_in_reference base 0 digits.now) }
{
    as_char(numbered_in(base, digits))
}

/// The character of the short name that is all of a name, where it is one. Does not allocate.
#[tactic(auto, using(crate::proofs::Scalars::short_scalar))]
pub fn short_char(name: &[u8]) -> Option<char>
    ensures { result ≡ short_in short_names name.now }
{
    match short_name(name) {
        Some(code) => Some(as_char(code)),
        None => None,
    }
}

fn as_char(code: u32) -> char
    requires { IsScalar code }
    ensures { result ≡ code }
{
    match char::from_u32(code) {
        Some(character) => character,
        None => '\u{FFFD}',
    }
}
