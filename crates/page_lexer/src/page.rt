ghost use Rattle.std.specs.Prelude.{◌≡◌, ◌+◌, ◌<◌, ◌≤◌, IfOk, OnOk, length};
ghost use Rattle.page_lexer.specs.Pages as spec;
ghost use Rattle.page_lexer.specs.Spans.{AreInPage};

use crate::class::{PageClass, class_of};
use crate::contents::{push_content, push_text, push_token};
use crate::state::{Reading, Where};
use crate::token::{PageToken, What};
use page_io::{List, Memory};
use std::alloc::Global;

/// The tokens of a page, of any bytes (HTML Standard, section 13.2.5). Takes time linear in the page. Fails only if allocation fails.
pub fn read_page(alloc: Global, page: &[u8]) -> Result<List<PageToken>, Memory>
    ensures tokens { IfOk result (λ tokens. tokens ≡ spec.tokens_of page.now) }
    ensures spans { IfOk result (λ tokens. AreInPage page.now tokens) }
{
    let mut reading = Reading::start(alloc);
    for (here, byte) in page.iter().enumerate() {
        reading.read_byte(alloc, page, here, *byte)?;
    }
    reading.end(alloc, page)?;
    Ok(reading.tokens)
}

impl Reading {
    // Reads the byte of the page at a place.
    fn read_byte(&mut self, alloc: Global, page: &[u8], here: usize, byte: u8) -> Result<(), Memory>
        requires here { here < length page.now }
        requires less { self.old.less ≤ length page.now }
        ensures { OnOk result (self.new ≡ spec.read_byte page.now here byte self.old) }
    {
        self.step(alloc, page, class_of(byte), here, here + 1)
    }

    // Reads a byte by its class.
    fn step(
        &mut self,
        alloc: Global,
        page: &[u8],
        class: PageClass,
        here: usize,
        next: usize,
    ) -> Result<(), Memory>
        requires less { self.old.less ≤ length page.now }
        ensures { OnOk result (self.new ≡ spec.step page.now self.old.at class here next self.old) }
    {
        match self.at {
            Where::Text => {
                self.in_text(class, here);
                Ok(())
            }
            Where::TagOpen => self.tag_open(class, here, next),
            Where::EndTagOpen => self.end_tag_open(class, here, next),
            Where::DeclarationOpen => self.in_declaration_open(page, class, next),
            Where::Comment(state) => self.comment(state, class, next),
            Where::BogusComment => self.bogus_comment(class, next),
            Where::Doctype => self.doctype(class, next),
            Where::TagName => self.tag_name(alloc, page, class, here, next),
            Where::BeforeAttributeName | Where::AfterAttributeValue => {
                self.before_attribute_name(alloc, page, class, here, next, false)
            }
            Where::AttributeName => self.attribute_name(alloc, page, class, here, next),
            Where::AfterAttributeName => self.after_attribute_name(alloc, page, class, here, next),
            Where::BeforeAttributeValue => {
                self.before_attribute_value(alloc, page, class, here, next)
            }
            Where::AttributeValue(quoting) => {
                self.attribute_value(alloc, page, quoting, class, here, next)
            }
            Where::SelfClosingStartTag => {
                self.before_attribute_name(alloc, page, class, here, next, true)
            }
            Where::Content(element, pending) => {
                self.content(alloc, page, element, pending, class, here, next)
            }
        }
    }

    // The end of the page.
    fn end(&mut self, alloc: Global, page: &[u8]) -> Result<(), Memory>
        ensures { OnOk result (self.new.tokens ≡ spec.tokens_at_end page.now self.old.at self.old) }
    {
        let to = page.len();
        match self.at {
            Where::Text | Where::TagOpen | Where::EndTagOpen => {
                push_text(&mut self.tokens, self.text, to)
            }
            Where::Content(element, _) => {
                push_content(alloc, &mut self.tokens, page, element, self.text, to)
            }
            _ => push_token(&mut self.tokens, self.less, to, What::Unfinished),
        }
    }
}
