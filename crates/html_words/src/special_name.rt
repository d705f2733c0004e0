ghost use Rattle.std.specs.Prelude.{◌≡◌};
ghost use Rattle.std.specs.Str.{str_to_ascii_lowercase};
ghost use Rattle.place_core.specs.page.Words.{is_special, special_names};
ghost use Rattle.place_core.specs.page.Words as spec;

use crate::kind::attr_kind;
use crate::words::is_among;
use place_core::{Element, Kind};

/// Whether no data may make this name of an attribute, in any case: one that is not plain on some element, or decides what a page
/// does. (HTML Standard, sections 3.2.6, 4.12.1 and 8.1.8.1.) Does not allocate.
pub fn special(name: &str) -> bool
    ensures { result ≡ is_special name.now }
{
    // Only script elements have a kind of their own.
    !is_plain(attr_kind(name, Element::Other))
        || !is_plain(attr_kind(name, Element::Script))
        || is_special_name(name.as_bytes())
}

fn is_plain(kind: Kind) -> bool
    ensures { result ≡ spec.is_plain_name kind }
{
    matches!(kind, Kind::Plain)
}

// Whether a plain name decides what a page does.
fn is_special_name(name: &[u8]) -> bool
    ensures { result ≡ spec.is_among special_names (str_to_ascii_lowercase name.now) }
{
    is_among(
        name,
        &[
            b"async",
            b"autocomplete",
            b"charset",
            b"content",
            b"defer",
            b"enctype",
            b"form",
            b"formenctype",
            b"formmethod",
            b"formnovalidate",
            b"formtarget",
            b"http-equiv",
            b"integrity",
            b"language",
            b"method",
            b"nonce",
            b"novalidate",
            b"pattern",
            b"rel",
            b"sandbox",
            b"type",
        ],
    )
}
