// The names of the elements whose content holds no tags (HTML Standard, section 13.2.6.4: title, textarea, style and script).
ghost use Rattle.std.specs.Prelude.{◌≡◌};
ghost use Rattle.std.specs.Str.{str_to_ascii_lowercase as lower};
ghost use Rattle.place_core.specs.page.Contents as spec;
ghost use Rattle.place_core.specs.page.Tags as tags;

use html_words::{begins, same};
use place_core::Element;

/// The element of a start tag, by its name in lower case.
pub fn element_of(name: &[u8]) -> Element
    ensures { result ≡ tags.element_of name.now }
{
    if name == b"title".as_slice() {
        return Element::Title;
    }
    if name == b"textarea".as_slice() {
        return Element::Textarea;
    }
    if name == b"style".as_slice() {
        return Element::Style;
    }
    if name == b"script".as_slice() {
        return Element::Script;
    }
    Element::Other
}

/// Whether letters are the name of an element, in any case.
pub fn is_name_of(element: Element, letters: &[u8]) -> bool
    ensures { result ≡ spec.is_name_of element letters.now }
{
    same(letters, name_of(element))
}

/// Whether letters may become the name of an element.
pub fn may_be_name_of(element: Element, letters: &[u8]) -> bool
    ensures { result ≡ spec.may_be_name_of element letters.now }
{
    begins(name_of(element), letters)
}

fn name_of(element: Element) -> &'static [u8]
    ensures name { result.now ≡ spec.name_of element }
    ensures lower { lower result.now ≡ spec.name_of element }
{
    match element {
        Element::Title => b"title",
        Element::Textarea => b"textarea",
        Element::Style => b"style",
        Element::Script | Element::DataBlock => b"script",
        Element::Other => b"",
    }
}
