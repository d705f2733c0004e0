ghost use Rattle.std.specs.Prelude.{◌≡◌};
ghost use Rattle.css_lexer.specs.Classes.{style_class};
ghost use Rattle.page_style.specs.Changes as changes;
ghost use Rattle.page_style.specs.Views.{read_style_escape, quote_at, style_state_at, url_word_at};

use crate::next::{is_taken, next};
use crate::state::{Escape, Quote, State, UrlWord};
use css_lexer::{StyleClass, class_of};
use page_piece::PieceKind;

/// What the next bytes do to the pieces.
#[derive(Clone, Copy)]
pub enum PieceChange {
    /// They are held back: a `/`, with which a comment may begin, or a `\`, with which an escape does unless the style ends.
    Hold,
    /// The open piece goes on with them where it is of the same kind, or else one begins.
    Run(PieceKind),
    /// A piece begins with them.
    Begin(PieceKind),
    /// They are a piece by themselves.
    Alone(PieceKind),
    /// The open piece goes on with them.
    Grow,
    /// The open piece goes on with them, and is of this kind.
    GrowAs(PieceKind),
    /// The open piece ends with them.
    Close,
    /// The open piece is a bad string, and plain text begins with them.
    Break,
}

// Between tokens.
fn between(class: StyleClass) -> PieceChange
    ensures { result ≡ changes.change_between class }
{
    match class {
        StyleClass::WordByte => PieceChange::Run(PieceKind::Word),
        StyleClass::ReverseSolidus | StyleClass::Solidus => PieceChange::Hold,
        StyleClass::QuotationMark | StyleClass::Apostrophe => PieceChange::Begin(PieceKind::String),
        StyleClass::LeftParenthesis | StyleClass::RightParenthesis | StyleClass::Punctuation => {
            PieceChange::Alone(PieceKind::Punct)
        }
        StyleClass::Blank
        | StyleClass::Newline
        | StyleClass::Asterisk
        | StyleClass::LessThan
        | StyleClass::OtherByte => PieceChange::Run(PieceKind::Plain),
    }
}

// In a word.
fn in_word(word: UrlWord, escape: Escape, class: StyleClass) -> PieceChange
    ensures { result ≡ changes.change_word (url_word_at word) (read_style_escape escape) class }
{
    match (word, escape, class) {
        (_, Escape::Backslash, _) => PieceChange::Run(PieceKind::Word),
        (UrlWord::Url, _, StyleClass::LeftParenthesis) => PieceChange::GrowAs(PieceKind::Url),
        _ => between(class),
    }
}

// After a `/`.
fn behind_solidus(class: StyleClass) -> PieceChange
    ensures { result ≡ changes.change_solidus class }
{
    match class {
        StyleClass::Asterisk => PieceChange::Begin(PieceKind::Comment),
        _ => between(class),
    }
}

// In a comment.
fn in_comment(star: bool, class: StyleClass) -> PieceChange
    ensures { result ≡ changes.change_comment star class }
{
    match (star, class) {
        (true, StyleClass::Solidus) => PieceChange::Close,
        _ => PieceChange::Grow,
    }
}

// In a string.
fn in_string(taken: bool, quote: Quote, class: StyleClass) -> PieceChange
    ensures { result ≡ changes.change_string taken (quote_at quote) class }
{
    match (taken, quote, class) {
        (true, _, _) => PieceChange::Grow,
        (false, Quote::Double, StyleClass::QuotationMark)
        | (false, Quote::Single, StyleClass::Apostrophe) => PieceChange::Close,
        (false, _, StyleClass::Newline) => PieceChange::Break,
        _ => PieceChange::Grow,
    }
}

// In a URL that is none.
fn in_bad_url(class: StyleClass) -> PieceChange
    ensures { result ≡ changes.change_bad_url class }
{
    match class {
        StyleClass::RightParenthesis => PieceChange::Close,
        _ => PieceChange::Grow,
    }
}

// In a url token, by the state to which the byte leads.
fn in_url(next: State) -> PieceChange
    ensures { result ≡ changes.change_url (style_state_at next) }
{
    match next {
        State::InUrl(_) => PieceChange::Grow,
        State::BadUrl => PieceChange::GrowAs(PieceKind::BadString),
        _ => PieceChange::Close,
    }
}

/// What a byte does to the pieces.
pub fn style_change_of(state: State, byte: u8) -> PieceChange
    ensures { result ≡ changes.style_change_of (style_state_at state) byte }
{
    let class = class_of(byte);
    match state {
        State::Between(_) | State::LessThan => between(class),
        State::Word(word, escape) => in_word(word, escape, class),
        State::Solidus(_) => behind_solidus(class),
        State::Comment(star) => in_comment(star, class),
        State::InString(quote, escape) => in_string(is_taken(escape, byte), quote, class),
        State::BadUrl => in_bad_url(class),
        State::InUrl(_) => in_url(next(state, byte)),
    }
}

/// Whether a `/` that is held back is plain text before this byte: it begins no comment.
pub fn releases(state: State, byte: u8) -> bool
    ensures { result ≡ changes.releases (style_state_at state) (style_class byte) }
{
    match state {
        State::Solidus(_) => !matches!(class_of(byte), StyleClass::Asterisk),
        _ => false,
    }
}
