use crate::css::Css;
use crate::element::Element;
use crate::js::Js;
use crate::tag_place::TagPlace;
use crate::value_place::ValuePlace;

/// A place in a page: all that matters to how the text after it is read and how a value of data is written there. Where several
/// paths lead to one point of a template, its sets and truth values say what holds on some of them.
#[derive(Clone, Copy, Debug, Drop, PartialEq, Eq)]
pub enum Place {
    /// In text, as after `<p>`.
    Text,
    /// In a document type, as after `<!DOCTYPE `.
    Doctype,
    /// In a comment, as after `<!-- a`; true where a piece of text may have ended in `-` or `--!`, as `<!-- a -`.
    Comment(bool),
    /// In text without tags, as after `<title>` or `<textarea>`.
    Rcdata(Element),
    /// In a tag, as after `<b `, outside the values of its attributes.
    Tag(TagPlace),
    /// In an attribute's value, as after `<b title="`.
    Value(ValuePlace),
    /// In the content of a script element, as after `<script>`.
    Script(Js),
    /// In the content of a style element, as after `<style>`.
    Style(Css),
    /// In the content of a script element that has no script's type, as after `<script type="text/plain">`; true where a
    /// piece of text may have ended in `<`.
    Block(bool),
}

/// The place where a page begins.
pub const TEXT: Place = Place::Text;
