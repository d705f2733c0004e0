use page_io::{List, Text};
use page_piece::Piece;
use page_url::Scheme;
use place_core::Kind;

/// A token of a page: the bytes from `from` up to, and without, `to`, as places in the page, and what they are (HTML Standard,
/// section 13.2.5).
#[derive(Debug, Drop)]
pub struct PageToken {
    pub from: u64,
    pub to: u64,
    pub what: What,
}

/// What a token is.
#[derive(Debug, Drop)]
pub enum What {
    /// A longest run of text, also the whole content of a title or a textarea.
    Text,
    /// A start tag.
    Start(Tag),
    /// An end tag.
    End(Tag),
    /// A comment, and what is read as one up to `>` (bogus comment state).
    Comment,
    /// A doctype.
    Doctype,
    /// The content of a script element whose type is no script's (a data block; section 4.12.1).
    Block,
    /// A `<!--` in the content of a script element. HTML would read what follows otherwise (script data escaped states).
    Escape,
    /// A tag, a comment or a doctype that the end of the page cuts.
    Unfinished,
    /// The content of a script element, where it has a piece.
    Script(List<Piece>),
    /// The content of a style element, where it has a piece.
    Style(List<Piece>),
}

/// A tag: its name in lower case, whether it closes itself, and its attributes in order.
#[derive(Debug, Drop)]
pub struct Tag {
    pub name: Text,
    pub closing: bool,
    pub attrs: List<Attr>,
}

/// An attribute: the place of its name's first byte in the page, its name in lower case, its kind, and its value read by that kind.
#[derive(Debug, Drop)]
pub struct Attr {
    pub from: u64,
    pub name: Text,
    pub kind: Kind,
    pub value: Read,
}

/// The value of an attribute, with references undone, as its kind reads it; without a value the empty one.
#[derive(Debug, Drop)]
pub enum Read {
    /// The characters, also of the kinds that decide how an element is read and that no hole may stand in.
    Chars(Text),
    /// The scheme of a URL, and its characters.
    Url(Scheme, Text),
    /// The pieces of a script.
    Script(List<Piece>),
    /// The pieces of a style.
    Style(List<Piece>),
}
