// Tags and their attributes (HTML Standard, sections 13.2.5.8 and 13.2.5.32 to 13.2.5.40).
ghost use Rattle.std.specs.Prelude.{◌≡◌, OnOk};
ghost use Rattle.page_lexer.specs.TagStates as spec;

use crate::class::PageClass;
use crate::state::{PageQuoting, Reading, Where};
use page_io::Memory;
use std::alloc::Global;

impl Reading {
    /// In the name of a tag (tag name state).
    pub fn tag_name(
        &mut self,
        alloc: Global,
        page: &[u8],
        class: PageClass,
        here: usize,
        next: usize,
    ) -> Result<(), Memory>
        ensures { OnOk result (self.new ≡ spec.tag_name page.now class here next self.old) }
    {
        match class {
            PageClass::White => {
                self.name_to = here;
                self.at = Where::BeforeAttributeName;
                Ok(())
            }
            PageClass::Solidus => {
                self.name_to = here;
                self.at = Where::SelfClosingStartTag;
                Ok(())
            }
            PageClass::GreaterThan => {
                self.name_to = here;
                self.end_tag(alloc, page, next, false)
            }
            _ => Ok(()),
        }
    }

    /// Where the name of an attribute may begin (before attribute name state); after a solidus the end of the tag makes it one that
    /// closes itself (self-closing start tag state).
    pub fn before_attribute_name(
        &mut self,
        alloc: Global,
        page: &[u8],
        class: PageClass,
        here: usize,
        next: usize,
        closing: bool,
    ) -> Result<(), Memory>
        ensures { OnOk result
            (self.new ≡ spec.before_attribute_name page.now class here next closing self.old) }
    {
        match class {
            PageClass::White => self.at = Where::BeforeAttributeName,
            PageClass::Solidus => self.at = Where::SelfClosingStartTag,
            PageClass::GreaterThan => return self.end_tag(alloc, page, next, closing),
            _ => self.begin_attr(here),
        }
        Ok(())
    }

    /// In the name of an attribute (attribute name state).
    pub fn attribute_name(
        &mut self,
        alloc: Global,
        page: &[u8],
        class: PageClass,
        here: usize,
        next: usize,
    ) -> Result<(), Memory>
        ensures { OnOk result (self.new ≡ spec.attribute_name page.now class here next self.old) }
    {
        match class {
            PageClass::White => {
                self.attr.name_to = here;
                self.at = Where::AfterAttributeName;
                Ok(())
            }
            PageClass::EqualsSign => {
                self.attr.name_to = here;
                self.at = Where::BeforeAttributeValue;
                Ok(())
            }
            PageClass::Solidus | PageClass::GreaterThan => {
                self.attr.name_to = here;
                self.end_attr()?;
                self.before_attribute_name(alloc, page, class, here, next, false)
            }
            _ => Ok(()),
        }
    }

    /// After the name of an attribute and white space (after attribute name state).
    pub fn after_attribute_name(
        &mut self,
        alloc: Global,
        page: &[u8],
        class: PageClass,
        here: usize,
        next: usize,
    ) -> Result<(), Memory>
        ensures { OnOk result
            (self.new ≡ spec.after_attribute_name page.now class here next self.old) }
    {
        match class {
            PageClass::White => Ok(()),
            PageClass::EqualsSign => {
                self.at = Where::BeforeAttributeValue;
                Ok(())
            }
            _ => {
                self.end_attr()?;
                self.before_attribute_name(alloc, page, class, here, next, false)
            }
        }
    }

    /// After the equals sign (before attribute value state).
    pub fn before_attribute_value(
        &mut self,
        alloc: Global,
        page: &[u8],
        class: PageClass,
        here: usize,
        next: usize,
    ) -> Result<(), Memory>
        ensures { OnOk result
            (self.new ≡ spec.before_attribute_value page.now class here next self.old) }
    {
        match class {
            PageClass::White => {}
            PageClass::QuotationMark => self.begin_value(next, PageQuoting::Double),
            PageClass::Apostrophe => self.begin_value(next, PageQuoting::Single),
            PageClass::GreaterThan => {
                self.end_attr()?;
                return self.end_tag(alloc, page, next, false);
            }
            _ => self.begin_value(here, PageQuoting::Unquoted),
        }
        Ok(())
    }

    // Begins the value of the attribute at hand.
    fn begin_value(&mut self, from: usize, quoting: PageQuoting)
        ensures { self.new ≡ spec.value_begun from quoting self.old }
    {
        self.attr.value_from = from;
        self.at = Where::AttributeValue(quoting);
    }

    /// In the value of an attribute (attribute value states).
    pub fn attribute_value(
        &mut self,
        alloc: Global,
        page: &[u8],
        quoting: PageQuoting,
        class: PageClass,
        here: usize,
        next: usize,
    ) -> Result<(), Memory>
        ensures { OnOk result
            (self.new ≡ spec.attribute_value page.now quoting class here next self.old) }
    {
        if !ends_attribute_value(quoting, class) {
            return Ok(());
        }
        self.attr.value_to = here;
        self.end_attr()?;
        self.after_value(alloc, page, quoting, class, here, next)
    }

    // The byte that ends a value: a quote is a part of it, any other byte is not.
    fn after_value(
        &mut self,
        alloc: Global,
        page: &[u8],
        quoting: PageQuoting,
        class: PageClass,
        here: usize,
        next: usize,
    ) -> Result<(), Memory>
        ensures { OnOk result (self.new ≡ spec.after_value page.now quoting class here next self.old) }
    {
        match quoting {
            PageQuoting::Unquoted => self.before_attribute_name(
                alloc, page, class, here, next, false,
            ),
            _ => {
                self.at = Where::AfterAttributeValue;
                Ok(())
            }
        }
    }
}

// Whether a byte ends a value.
fn ends_attribute_value(quoting: PageQuoting, class: PageClass) -> bool
    ensures { result ≡ spec.ends_attribute_value quoting class }
{
    matches!(
        (quoting, class),
        (PageQuoting::Double, PageClass::QuotationMark)
            | (PageQuoting::Single, PageClass::Apostrophe)
            | (
                PageQuoting::Unquoted,
                PageClass::White | PageClass::GreaterThan
            )
    )
}
