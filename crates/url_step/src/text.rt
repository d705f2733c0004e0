ghost use Rattle.std.specs.Prelude.{◌≡◌, option_map};
ghost use Rattle.place_core.specs.place.LanguagePlaces.{both_prefixes};
ghost use Rattle.url_lexer.specs.Classes as classes;
ghost use Rattle.place_core.specs.page.Tags.{refusal_code};
ghost use Rattle.url_step.specs.PartSets.{first_spelled, next_spelled, parts_error, parts_next};
ghost use Rattle.url_step.specs.PartSets as spec;

use crate::letters;
use place_core::{Code, Parts, Prefix};
use url_lexer::{UrlClass, url_class_of};

// What the beginning spells behind a character, where some paths are in it.
fn spelled(opened: Option<Prefix>, byte: u8) -> Option<Prefix>
    ensures { result ≡ option_map (next_spelled byte) opened }
{
    match opened {
        Some(prefix) => Some(letters::next(prefix, byte)),
        None => None,
    }
}

// The same, where some paths may begin with the character.
fn begun_or_spelled(start: bool, opened: Option<Prefix>, byte: u8) -> Option<Prefix>
    ensures { result ≡ both_prefixes (first_spelled start byte)
        (option_map (next_spelled byte) opened) }
{
    match (start, spelled(opened, byte)) {
        (false, next) => next,
        (true, None) => Some(letters::first(byte)),
        (true, Some(next)) => Some(if letters::first(byte) == next {
            next
        } else {
            Prefix::Differs
        }),
    }
}

// Whether paths are in the beginning that have a scheme that is code behind a `:`.
fn spells_code(opened: Option<Prefix>) -> bool
    ensures { result ≡ spec.spells_code opened }
{
    match opened {
        Some(prefix) => letters::is_whole(prefix),
        None => false,
    }
}

// Whether paths are in the beginning that have another scheme there.
fn spells_no_code(opened: Option<Prefix>) -> bool
    ensures { result ≡ spec.spells_no_code opened }
{
    match opened {
        Some(prefix) => !letters::is_whole(prefix),
        None => false,
    }
}

/// The parts behind a byte of text. (RFC 3986, section 3.)
pub fn next(parts: Parts, byte: u8) -> Parts
    ensures { result ≡ parts_next parts (classes.url_class_of byte) byte }
{
    match url_class_of(byte) {
        UrlClass::TabOrNewline => parts,
        UrlClass::ControlOrSpace => Parts {
            opened: spelled(parts.opened, byte),
            ..parts
        },
        UrlClass::Colon => Parts {
            start: false,
            opened: None,
            prequery: parts.start || (spells_no_code(parts.opened) || parts.prequery),
            bad: spells_code(parts.opened) || parts.bad,
            ..parts
        },
        UrlClass::Slash => Parts {
            start: false,
            opened: None,
            openhole: false,
            prequery: parts.start || (parts.opened.is_some() || (parts.openhole || parts.prequery)),
            ..parts
        },
        UrlClass::QueryMark => Parts {
            start: false,
            opened: None,
            openhole: false,
            prequery: false,
            query: parts.start
                || (parts.opened.is_some() || (parts.openhole || (parts.prequery || parts.query))),
            bad: parts.bad,
        },
        UrlClass::Percent | UrlClass::Hexadecimal | UrlClass::Other => Parts {
            start: false,
            opened: begun_or_spelled(parts.start, parts.opened, byte),
            ..parts
        },
    }
}

/// Why a byte of text is refused, where it is: whether it ends a scheme, or which one, depends on the path or on data.
pub fn refused(parts: Parts, byte: u8) -> Option<Code>
    ensures { result ≡ option_map refusal_code
        (parts_error parts (classes.url_class_of byte)) }
{
    match url_class_of(byte) {
        UrlClass::Colon if parts.openhole || matches!(parts.opened, Some(Prefix::Differs)) => {
            Some(Code::AmbigContext)
        },
        _ => None,
    }
}
