ghost use Rattle.std.specs.Prelude.{◌≡◌};
ghost use Rattle.css_lexer.specs.Classes.{style_class};
ghost use Rattle.css_lexer.specs.Escapes as escapes;
ghost use Rattle.css_lexer.specs.Steps as steps;
ghost use Rattle.page_style.specs.StyleUrls.{any_url, any_url_state};
ghost use Rattle.page_style.specs.Views.{read_style_escape, form_at, quote_at, style_state_at, url_word_at};

use crate::state::{Escape, Quote, State, UrlForm, UrlWord};
use css_lexer::{StyleClass, class_of};

// How much of `url` a word is, with its first byte.
fn first_letter(byte: u8) -> UrlWord
    ensures { url_word_at result ≡ steps.first_letter byte }
{
    if byte.to_ascii_lowercase() == b'u' {
        UrlWord::U
    } else {
        UrlWord::Other
    }
}

// The same with a further byte.
fn next_letter(word: UrlWord, byte: u8) -> UrlWord
    ensures { url_word_at result ≡ steps.next_letter (url_word_at word) byte }
{
    match word {
        UrlWord::U => {
            if byte.to_ascii_lowercase() == b'r' {
                UrlWord::Ur
            } else {
                UrlWord::Other
            }
        }
        UrlWord::Ur => {
            if byte.to_ascii_lowercase() == b'l' {
                UrlWord::Url
            } else {
                UrlWord::Other
            }
        }
        UrlWord::Url | UrlWord::Other => UrlWord::Other,
    }
}

// The escape that is open after a byte that a backslash takes.
fn behind_taken(byte: u8) -> Escape
    ensures { read_style_escape result ≡ escapes.behind_taken byte }
{
    if byte.is_ascii_hexdigit() {
        Escape::Digits(1)
    } else {
        Escape::None
    }
}

// The same in a string.
fn behind_taken_in_string(escape: Escape, byte: u8) -> Escape
    ensures { read_style_escape result ≡ escapes.behind_taken_in_string (read_style_escape escape) byte }
{
    match escape {
        Escape::Backslash => {
            if byte == b'\r' {
                Escape::Return
            } else {
                behind_taken(byte)
            }
        }
        Escape::None | Escape::Digits(_) | Escape::Return => Escape::None,
    }
}

// The escape that is open after a byte that no backslash takes.
fn behind_byte(escape: Escape, byte: u8) -> Escape
    ensures { read_style_escape result ≡ escapes.behind_byte (read_style_escape escape) byte }
{
    match escape {
        Escape::Digits(count) => {
            if byte.is_ascii_hexdigit() && count < 6 {
                Escape::Digits(count + 1)
            } else {
                Escape::None
            }
        }
        Escape::None | Escape::Backslash | Escape::Return => Escape::None,
    }
}

/// Whether a backslash takes this byte of a string.
pub fn is_taken(escape: Escape, byte: u8) -> bool
    ensures { result ≡ escapes.is_taken_in_style (read_style_escape escape) byte }
{
    match escape {
        Escape::Backslash => true,
        Escape::Return => byte == b'\n',
        Escape::None | Escape::Digits(_) => false,
    }
}

// Between tokens.
fn between(class: StyleClass, byte: u8, blank: bool) -> State
    ensures { style_state_at result ≡ steps.next_between blank class byte }
{
    match class {
        StyleClass::WordByte => State::Word(first_letter(byte), Escape::None),
        StyleClass::ReverseSolidus => State::Word(UrlWord::Other, Escape::Backslash),
        StyleClass::QuotationMark => State::InString(Quote::Double, Escape::None),
        StyleClass::Apostrophe => State::InString(Quote::Single, Escape::None),
        StyleClass::Solidus => State::Solidus(blank),
        StyleClass::LessThan => State::LessThan,
        StyleClass::Blank | StyleClass::Newline => State::Between(true),
        StyleClass::LeftParenthesis
        | StyleClass::RightParenthesis
        | StyleClass::Asterisk
        | StyleClass::Punctuation
        | StyleClass::OtherByte => State::Between(false),
    }
}

// In a word.
fn in_word(word: UrlWord, escape: Escape, class: StyleClass, byte: u8) -> State
    ensures { style_state_at result
        ≡ steps.next_style_word any_url (url_word_at word) (read_style_escape escape) class byte }
{
    match (word, escape, class) {
        (_, Escape::Backslash, _) => State::Word(UrlWord::Other, behind_taken(byte)),
        (_, _, StyleClass::WordByte) => {
            State::Word(next_letter(word, byte), behind_byte(escape, byte))
        }
        (_, _, StyleClass::ReverseSolidus) => State::Word(UrlWord::Other, Escape::Backslash),
        (UrlWord::Url, _, StyleClass::LeftParenthesis) => State::InUrl(UrlForm::Fresh),
        _ => between(class, byte, false),
    }
}

// After a `/`.
fn behind_solidus(class: StyleClass, byte: u8) -> State
    ensures { style_state_at result ≡ steps.next_solidus class byte }
{
    match class {
        StyleClass::Asterisk => State::Comment(false),
        _ => between(class, byte, false),
    }
}

// In a comment.
fn in_comment(star: bool, class: StyleClass) -> State
    ensures { style_state_at result ≡ steps.next_style_comment star class }
{
    match (star, class) {
        (true, StyleClass::Solidus) => State::Between(true),
        (_, StyleClass::Asterisk) => State::Comment(true),
        _ => State::Comment(false),
    }
}

// In a string.
fn in_string(taken: bool, quote: Quote, escape: Escape, class: StyleClass, byte: u8) -> State
    ensures { style_state_at result
        ≡ steps.next_style_string taken (quote_at quote) (read_style_escape escape) class byte }
{
    match (taken, quote, class) {
        (true, _, _) => State::InString(quote, behind_taken_in_string(escape, byte)),
        (false, Quote::Double, StyleClass::QuotationMark)
        | (false, Quote::Single, StyleClass::Apostrophe) => State::Between(false),
        (false, _, StyleClass::Newline) => State::Between(true),
        (false, _, StyleClass::ReverseSolidus) => State::InString(quote, Escape::Backslash),
        _ => State::InString(quote, behind_byte(escape, byte)),
    }
}

// In a URL without quotes.
fn in_bare(class: StyleClass, byte: u8) -> State
    ensures { style_state_at result ≡ steps.next_bare any_url any_url_state class byte }
{
    match class {
        StyleClass::Blank | StyleClass::Newline => State::InUrl(UrlForm::Ended),
        StyleClass::RightParenthesis => State::Between(false),
        StyleClass::QuotationMark | StyleClass::Apostrophe | StyleClass::LeftParenthesis => {
            State::BadUrl
        }
        _ => State::InUrl(UrlForm::Bare),
    }
}

// After `url(`.
fn in_fresh(class: StyleClass, byte: u8) -> State
    ensures { style_state_at result ≡ steps.next_fresh any_url any_url_state class byte }
{
    match class {
        StyleClass::Blank | StyleClass::Newline => State::InUrl(UrlForm::Fresh),
        StyleClass::QuotationMark => State::InUrl(UrlForm::Quoted(Quote::Double, Escape::None)),
        StyleClass::Apostrophe => State::InUrl(UrlForm::Quoted(Quote::Single, Escape::None)),
        _ => in_bare(class, byte),
    }
}

// In a URL in quotes.
fn in_quoted(taken: bool, quote: Quote, escape: Escape, class: StyleClass, byte: u8) -> State
    ensures { style_state_at result ≡ steps.next_quoted any_url taken (quote_at quote)
        (read_style_escape escape) any_url_state class byte }
{
    match (taken, quote, class) {
        (true, _, _) => {
            State::InUrl(UrlForm::Quoted(quote, behind_taken_in_string(escape, byte)))
        }
        (false, Quote::Double, StyleClass::QuotationMark)
        | (false, Quote::Single, StyleClass::Apostrophe) => State::InUrl(UrlForm::Ended),
        (false, _, StyleClass::Newline) => State::BadUrl,
        (false, _, StyleClass::ReverseSolidus) => {
            State::InUrl(UrlForm::Quoted(quote, Escape::Backslash))
        }
        _ => State::InUrl(UrlForm::Quoted(quote, behind_byte(escape, byte))),
    }
}

// After a URL.
fn behind_url(class: StyleClass) -> State
    ensures { style_state_at result ≡ steps.next_ended any_url_state class }
{
    match class {
        StyleClass::Blank | StyleClass::Newline => State::InUrl(UrlForm::Ended),
        StyleClass::RightParenthesis => State::Between(false),
        _ => State::BadUrl,
    }
}

// In a url token.
fn in_url(form: UrlForm, class: StyleClass, byte: u8) -> State
    ensures { style_state_at result
        ≡ steps.next_in_url any_url (form_at form) any_url_state class byte }
{
    match form {
        UrlForm::Fresh => in_fresh(class, byte),
        UrlForm::Bare => in_bare(class, byte),
        UrlForm::Quoted(quote, escape) => {
            in_quoted(is_taken(escape, byte), quote, escape, class, byte)
        }
        UrlForm::Ended => behind_url(class),
    }
}

// In a URL that is none.
fn in_bad_url(class: StyleClass) -> State
    ensures { style_state_at result ≡ steps.next_bad class }
{
    match class {
        StyleClass::RightParenthesis => State::Between(false),
        _ => State::BadUrl,
    }
}

/// Where a byte leads. (CSS Syntax Level 3, section 4.3.)
pub fn next(state: State, byte: u8) -> State
    ensures { style_state_at result ≡ steps.feed_style any_url (style_state_at state) byte }
{
    let class = class_of(byte);
    match state {
        State::Between(blank) => between(class, byte, blank),
        State::LessThan => between(class, byte, false),
        State::Word(word, escape) => in_word(word, escape, class, byte),
        State::Solidus(_) => behind_solidus(class, byte),
        State::Comment(star) => in_comment(star, class),
        State::InString(quote, escape) => {
            in_string(is_taken(escape, byte), quote, escape, class, byte)
        }
        State::BadUrl => in_bad_url(class),
        State::InUrl(form) => in_url(form, class, byte),
    }
}
