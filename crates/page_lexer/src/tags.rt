// The tags of a page: their names, and their attributes read by their kinds.
ghost use Rattle.std.specs.Prelude.{◌≡◌, IfOk};
ghost use Rattle.page_lexer.specs.Tags as spec;

use crate::characters::{name_text, shown_value};
use crate::parts::part;
use crate::state::AttrPlace;
use crate::token::{Attr, Read};
use html_words::{attr_kind, script_type};
use page_io::{List, Memory, Text};
use page_script::script_pieces;
use page_style::style_pieces;
use page_url::read_scheme;
use place_core::{Element, Kind};
use std::alloc::Global;

/// The attributes at these places, of a tag of an element.
pub fn attrs_at(
    alloc: Global,
    page: &[u8],
    element: Element,
    places: &[AttrPlace],
) -> Result<List<Attr>, Memory>
    ensures { IfOk result (λ attrs. attrs ≡ spec.attrs_at page.now element places.now) }
{
    let mut attrs = List::new(alloc);
    for place in places {
        attrs.push(attr_at(alloc, page, element, *place)?)?;
    }
    Ok(attrs)
}

// The attribute at a place.
fn attr_at(alloc: Global, page: &[u8], element: Element, place: AttrPlace) -> Result<Attr, Memory>
    ensures { IfOk result (λ attr. attr ≡ spec.attr_at page.now element place) }
{
    let name = name_text(alloc, part(page, place.name_from, place.name_to))?;
    let value = shown_value(alloc, part(page, place.value_from, place.value_to))?;
    let kind = attr_kind(name.as_str(), element);
    Ok(Attr {
        from: place.name_from as u64,
        name,
        kind,
        value: read_as(alloc, kind, value)?,
    })
}

// A value as its kind reads it.
fn read_as(alloc: Global, kind: Kind, value: Text) -> Result<Read, Memory>
    ensures { IfOk result (λ read. read ≡ spec.read_as kind value) }
{
    match kind {
        Kind::Url => {
            let scheme = read_scheme(alloc, value.as_str())?;
            Ok(Read::Url(scheme, value))
        }
        Kind::Script => Ok(Read::Script(script_pieces(alloc, value.as_str())?)),
        Kind::Style => Ok(Read::Style(style_pieces(alloc, value.as_str())?)),
        _ => Ok(Read::Chars(value)),
    }
}

/// The element by which the content behind a start tag is read: a script whose first `type` is no script's is a data block (HTML
/// Standard, section 4.12.1).
pub fn content_element(element: Element, attrs: &[Attr]) -> Element
    ensures { result ≡ spec.content_element element attrs.now }
{
    match element {
        Element::Script => script_element(attrs),
        _ => element,
    }
}

fn script_element(attrs: &[Attr]) -> Element
    ensures { result ≡ spec.script_element attrs.now }
{
    for attr in attrs {
        if let Kind::ScriptType = attr.kind {
            return element_by_type(&attr.value);
        }
    }
    Element::Script
}

fn element_by_type(value: &Read) -> Element
    ensures { result ≡ spec.element_by_type value.now }
{
    match value {
        Read::Chars(type_) => {
            if script_type(type_.as_str()) {
                Element::Script
            } else {
                Element::DataBlock
            }
        }
        _ => Element::Script,
    }
}
