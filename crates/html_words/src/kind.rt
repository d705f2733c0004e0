ghost use Rattle.std.specs.Prelude.{◌≡◌, ◌≤◌, length};
ghost use Rattle.std.specs.Str.{str_to_ascii_lowercase as lower};
ghost use Rattle.place_core.specs.page.Words.{kind_of, no_hole_names, prefix_length, url_names};
ghost use Rattle.html_words.specs.Prefixes.{kind_by_prefix};
ghost use Rattle.place_core.specs.page.Words as spec;

use crate::words::{begins, has_part, is_among, same};
use place_core::{Element, Kind};

/// How the value of an attribute is read: by its name, in any case, and the element on which it stands. (HTML Standard, sections
/// 3.2.6, 4.12.1 and 8.1.8.1; Go's `html/template` for the kinds.) Does not allocate.
pub fn attr_kind(name: &str, element: Element) -> Kind
    ensures { result ≡ kind_of element name.now }
{
    name_kind(name.as_bytes(), element)
}

/// The same of a name that is given by its bytes. Does not allocate.
pub fn name_kind(name: &[u8], element: Element) -> Kind
    ensures { result ≡ kind_of element name.now }
{
    if is_script(element) && same(name, b"type") {
        return Kind::ScriptType;
    }
    kind_with_prefix(name)
}

// A data block is a script element too.
fn is_script(element: Element) -> bool
    ensures { result ≡ spec.is_script element }
{
    matches!(element, Element::Script | Element::DataBlock)
}

// The kind of a name with its prefix; `data-` does not matter.
fn kind_with_prefix(name: &[u8]) -> Kind
    ensures { result ≡ spec.kind_with_prefix (lower name.now) }
{
    if begins(name, b"data-") {
        let (_, rest) = name.split_at(5);
        return kind_of_name(rest);
    }
    kind_after_prefix(name)
}

// A declaration of a namespace is a URL's; any other prefix up to a colon does not matter.
fn kind_after_prefix(name: &[u8]) -> Kind
    ensures { result ≡ kind_by_prefix (lower name.now) }
{
    let (prefix, rest) = name.split_at(prefix_len(name));
    match rest.split_first() {
        None => kind_of_name(name),
        Some((_, rest)) => {
            if same(prefix, b"xmlns") {
                Kind::Url
            } else {
                kind_of_name(rest)
            }
        }
    }
}

// How many bytes stand before the first colon.
fn prefix_len(name: &[u8]) -> usize
    ensures len { result ≡ prefix_length name.now }
    ensures bound { result ≤ length name.now }
{
    name.iter().take_while(|byte| **byte != b':').count()
}

// The kind of a name without a prefix.
fn kind_of_name(name: &[u8]) -> Kind
    ensures { result ≡ spec.kind_of_name (lower name.now) }
{
    if same(name, b"style") {
        return Kind::Style;
    }
    if is_no_hole_name(name) {
        return Kind::NoHole;
    }
    if is_url_name(name) {
        return Kind::Url;
    }
    if begins(name, b"on") {
        return Kind::Script;
    }
    if has_part(name, b"src") || has_part(name, b"uri") || has_part(name, b"url") {
        return Kind::Url;
    }
    Kind::Plain
}

fn is_no_hole_name(name: &[u8]) -> bool
    ensures { result ≡ spec.is_among no_hole_names (lower name.now) }
{
    is_among(name, &[b"srcdoc", b"srcset", b"imagesrcset"])
}

fn is_url_name(name: &[u8]) -> bool
    ensures { result ≡ spec.is_among url_names (lower name.now) }
{
    is_among(
        name,
        &[
            b"action",
            b"archive",
            b"background",
            b"cite",
            b"classid",
            b"codebase",
            b"data",
            b"formaction",
            b"href",
            b"icon",
            b"longdesc",
            b"manifest",
            b"poster",
            b"profile",
            b"src",
            b"usemap",
        ],
    )
}
