// The content of a title, a textarea, a style and a script, up to the element's own end tag (HTML Standard, sections 13.2.5.2 to
// 13.2.5.4 and 13.2.5.9 to 13.2.5.17).
ghost use Rattle.std.specs.Prelude.{◌≡◌, ◌≤◌, OnOk, length};
ghost use Rattle.page_lexer.specs.ContentStates as spec;

use crate::class::PageClass;
use crate::elements::{is_name_of, may_be_name_of};
use crate::parts::part;
use crate::state::{Pending, Reading, Where};
use page_io::Memory;
use place_core::Element;
use std::alloc::Global;

impl Reading {
    /// In the content of an element.
    #[allow(clippy::too_many_arguments)]
    pub fn content(
        &mut self,
        alloc: Global,
        page: &[u8],
        element: Element,
        pending: Pending,
        class: PageClass,
        here: usize,
        next: usize,
    ) -> Result<(), Memory>
        requires less { self.old.less ≤ length page.now }
        ensures { OnOk result
            (self.new ≡ spec.content page.now element pending class here next self.old) }
    {
        match pending {
            Pending::Nothing => self.content_byte(element, class, here),
            Pending::LessThan => self.content_behind_less(element, class, here, next),
            Pending::Name => return self.content_name(alloc, page, element, class, here, next),
        }
        Ok(())
    }

    // A byte where nothing is pending.
    fn content_byte(&mut self, element: Element, class: PageClass, here: usize)
        ensures { self.new ≡ spec.content_byte element class here self.old }
    {
        if let PageClass::LessThan = class {
            self.less = here;
            self.at = Where::Content(element, Pending::LessThan);
        } else {
            self.at = Where::Content(element, Pending::Nothing);
        }
    }

    // A byte after `<`.
    fn content_behind_less(&mut self, element: Element, class: PageClass, here: usize, next: usize)
        ensures { self.new ≡ spec.content_behind_less element class here next self.old }
    {
        if let PageClass::Solidus = class {
            self.name = next;
            self.at = Where::Content(element, Pending::Name);
        } else {
            self.content_byte(element, class, here);
        }
    }

    // A byte after `</` and letters.
    fn content_name(
        &mut self,
        alloc: Global,
        page: &[u8],
        element: Element,
        class: PageClass,
        here: usize,
        next: usize,
    ) -> Result<(), Memory>
        requires less { self.old.less ≤ length page.now }
        ensures { OnOk result
            (self.new ≡ spec.content_name page.now element class here next self.old) }
    {
        if is_letter_class(class) && may_be_name_of(element, part(page, self.name, next)) {
            return Ok(());
        }
        if ends_name(class) && is_name_of(element, part(page, self.name, here)) {
            self.end_content(alloc, page, element)?;
            return self.tag_name(alloc, page, class, here, next);
        }
        self.content_byte(element, class, here);
        Ok(())
    }
}

fn is_letter_class(class: PageClass) -> bool
    ensures { result ≡ spec.is_letter_class class }
{
    matches!(class, PageClass::Letter)
}

// Whether a byte ends the name of a tag.
fn ends_name(class: PageClass) -> bool
    ensures { result ≡ spec.ends_name class }
{
    matches!(
        class,
        PageClass::White | PageClass::Solidus | PageClass::GreaterThan
    )
}
