// What the states of the reading of a page do.
ghost use Rattle.std.specs.Prelude.{◌≡◌, ◌≤◌, OnOk, length};
ghost use Rattle.page_lexer.specs.Reading as spec;

use crate::characters::name_text;
use crate::class::PageClass;
use crate::contents::{push_content, push_text, push_token};
use crate::elements::element_of;
use crate::parts::part;
use crate::state::{AttrPlace, CommentState, Pending, Reading, Where};
use crate::tags::{attrs_at, content_element};
use crate::token::{Tag, What};
use page_io::{List, Memory};
use place_core::Element;
use std::alloc::Global;
use std::mem;

const NO_ATTR: AttrPlace = AttrPlace {
    name_from: 0,
    name_to: 0,
    value_from: 0,
    value_to: 0,
};

impl Reading {
    /// The beginning of a page.
    pub fn start(alloc: Global) -> Reading
        ensures { result ≡ spec.page_start }
    {
        Reading {
            at: Where::Text,
            text: 0,
            less: 0,
            name: 0,
            name_to: 0,
            is_end: false,
            attr: NO_ATTR,
            attrs: List::new(alloc),
            tokens: List::new(alloc),
        }
    }

    /// Ends the text before the last `<`.
    pub fn end_text(&mut self) -> Result<(), Memory>
        ensures { OnOk result (self.new ≡ spec.text_ended self.old) }
    {
        push_text(&mut self.tokens, self.text, self.less)
    }

    /// Ends a comment or a doctype that begins at the last `<`.
    pub fn end_markup(&mut self, to: usize, what: What) -> Result<(), Memory>
        ensures { OnOk result (self.new ≡ spec.markup_ended to what self.old) }
    {
        push_token(&mut self.tokens, self.less, to, what)?;
        self.text = to;
        self.at = Where::Text;
        Ok(())
    }

    /// Begins a tag whose name begins here.
    pub fn begin_tag(&mut self, here: usize, is_end: bool) -> Result<(), Memory>
        ensures { OnOk result (self.new ≡ spec.tag_begun here is_end self.old) }
    {
        self.end_text()?;
        self.name = here;
        self.is_end = is_end;
        self.at = Where::TagName;
        Ok(())
    }

    /// Begins an attribute whose name begins here.
    pub fn begin_attr(&mut self, here: usize)
        ensures { self.new ≡ spec.attr_begun here self.old }
    {
        self.attr = AttrPlace {
            name_from: here,
            name_to: here,
            value_from: here,
            value_to: here,
        };
        self.at = Where::AttributeName;
    }

    /// Ends the attribute at hand.
    pub fn end_attr(&mut self) -> Result<(), Memory>
        ensures { OnOk result (self.new ≡ spec.attr_ended self.old) }
    {
        self.attrs.push(self.attr)
    }

    /// Ends the tag at hand.
    pub fn end_tag(
        &mut self,
        alloc: Global,
        page: &[u8],
        to: usize,
        closing: bool,
    ) -> Result<(), Memory>
        ensures { OnOk result (self.new ≡ spec.tag_ended page.now to closing self.old) }
    {
        let places = mem::replace(&mut self.attrs, List::new(alloc));
        let name = name_text(alloc, part(page, self.name, self.name_to))?;
        let element = if self.is_end {
            Element::Other
        } else {
            element_of(name.as_str().as_bytes())
        };
        let attrs = attrs_at(alloc, page, element, places.as_slice())?;
        let content = content_element(element, attrs.as_slice());
        let tag = Tag {
            name,
            closing,
            attrs,
        };
        let what = if self.is_end {
            What::End(tag)
        } else {
            What::Start(tag)
        };
        push_token(&mut self.tokens, self.less, to, what)?;
        self.text = to;
        self.at = behind_tag(content);
        Ok(())
    }

    /// Ends the content of an element, and begins the end tag behind it.
    pub fn end_content(
        &mut self,
        alloc: Global,
        page: &[u8],
        element: Element,
    ) -> Result<(), Memory>
        requires less { self.old.less ≤ length page.now }
        ensures { OnOk result (self.new ≡ spec.content_ended page.now element self.old) }
    {
        push_content(alloc, &mut self.tokens, page, element, self.text, self.less)?;
        self.is_end = true;
        Ok(())
    }
}

// Where the reading stands behind a tag, by the element of the content there.
fn behind_tag(element: Element) -> Where
    ensures { result ≡ spec.behind_tag element }
{
    match element {
        Element::Other => Where::Text,
        _ => Where::Content(element, Pending::Nothing),
    }
}

/// A byte in a comment that does not end it (HTML Standard, sections 13.2.5.43 to 13.2.5.52).
pub fn comment_goes_on(state: CommentState, class: PageClass) -> CommentState
    ensures { result ≡ spec.comment_goes_on state class }
{
    match (state, class) {
        (CommentState::Started, PageClass::HyphenMinus) => CommentState::StartedDash,
        (
            CommentState::StartedDash | CommentState::Dash | CommentState::DashDash,
            PageClass::HyphenMinus,
        ) => CommentState::DashDash,
        (CommentState::DashDash, PageClass::ExclamationMark) => CommentState::Bang,
        (_, PageClass::HyphenMinus) => CommentState::Dash,
        _ => CommentState::Inside,
    }
}
