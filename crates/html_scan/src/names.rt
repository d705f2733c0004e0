ghost use Rattle.std.specs.Prelude.{◌≡◌};
ghost use Rattle.std.specs.Str.{str_to_ascii_lowercase as lower};
ghost use Rattle.place_core.specs.page.Words.{kind_of};
ghost use Rattle.place_core.specs.page.Contents as spec;
ghost use Rattle.place_core.specs.page.Tags as tags;

use html_words::{begins, name_kind, same};
use place_core::{Element, Kind, TagOf};

/// The tag of this name, in any case; an end tag or not.
pub fn tag_named(ends: bool, name: &[u8]) -> TagOf
    ensures { result ≡ tags.tag_of_name ends (lower name.now) }
{
    if ends {
        return TagOf::End;
    }
    TagOf::Start(element_of(name))
}

fn element_of(name: &[u8]) -> Element
    ensures { result ≡ tags.element_of (lower name.now) }
{
    if same(name, b"title") {
        return Element::Title;
    }
    if same(name, b"textarea") {
        return Element::Textarea;
    }
    if same(name, b"style") {
        return Element::Style;
    }
    if same(name, b"script") {
        return Element::Script;
    }
    Element::Other
}

/// The element on which the attributes of a tag stand; those of an end tag are as on any other element.
pub fn element_on(tag: TagOf) -> Element
    ensures { result ≡ tags.element_on tag }
{
    match tag {
        TagOf::End => Element::Other,
        TagOf::Start(element) => element,
    }
}

/// The kind of an attribute of this tag, by its name in any case.
pub fn kind_on(tag: TagOf, name: &[u8]) -> Kind
    ensures { result ≡ kind_of (tags.element_on tag) (lower name.now) }
{
    name_kind(name, element_on(tag))
}

/// Whether letters are the name of an element, in any case.
pub fn is_name_of(element: Element, letters: &[u8]) -> bool
    ensures { result ≡ spec.is_name_of element letters.now }
{
    same(letters, name_of(element))
}

/// Whether letters may become the name of an element.
pub fn may_be_name_of(element: Element, letters: &[u8]) -> bool
    ensures { result ≡ spec.may_be_name_of element letters.now }
{
    begins(name_of(element), letters)
}

fn name_of(element: Element) -> &'static [u8]
    ensures name { result.now ≡ spec.name_of element }
    ensures lower { lower result.now ≡ spec.name_of element }
{
    match element {
        Element::Title => b"title",
        Element::Textarea => b"textarea",
        Element::Style => b"style",
        Element::Script | Element::DataBlock => b"script",
        Element::Other => b"",
    }
}
