ghost use Rattle.std.specs.Prelude.{◌≡◌};
ghost use Rattle.css_lexer.specs.Classes.{style_class};
ghost use Rattle.css_lexer.specs.Escapes as escapes;
ghost use Rattle.css_lexer.specs.Steps as steps;
ghost use Rattle.css_step.specs.StyleScanViews.{style_escape_at, style_quote_at, style_scan_at};
ghost use Rattle.css_step.specs.StyleScanViews.{style_triple_at, style_word_at};
ghost use Rattle.css_step.specs.StyleScans.{style_bare_next, style_between_next, style_code_next};
ghost use Rattle.css_step.specs.StyleScans.{style_comment_next, style_ended_next};
ghost use Rattle.css_step.specs.StyleScans.{style_fresh_next, style_quoted_next, style_scan_next};
ghost use Rattle.css_step.specs.StyleScans.{style_solidus_next, style_split_next};
ghost use Rattle.css_step.specs.StyleScans.{style_split_word, style_string_next, style_word_next};
ghost use Rattle.url_lexer.specs.Classes as url_classes;
ghost use Rattle.url_lexer.specs.Triples.{next_triple};

use crate::scan::{
    NO_TAILS, StyleEscape, StyleQuote, StyleScan, StyleTriple, StyleWord, URL_START,
};
use css_lexer::{StyleClass, class_of};
use place_core::{CssTails, Parts};
use url_lexer::{UrlClass, url_class_of};

// How much of `url` a word is, with its first byte.
fn first_letter(byte: u8) -> StyleWord
    ensures { style_word_at result ≡ steps.first_letter byte }
{
    if byte.to_ascii_lowercase() == b'u' {
        StyleWord::U
    } else {
        StyleWord::Other
    }
}

// The same with a further byte.
fn next_letter(word: StyleWord, byte: u8) -> StyleWord
    ensures { style_word_at result ≡ steps.next_letter (style_word_at word) byte }
{
    match word {
        StyleWord::U => {
            if byte.to_ascii_lowercase() == b'r' {
                StyleWord::Ur
            } else {
                StyleWord::Other
            }
        }
        StyleWord::Ur => {
            if byte.to_ascii_lowercase() == b'l' {
                StyleWord::Url
            } else {
                StyleWord::Other
            }
        }
        StyleWord::Url | StyleWord::Other => StyleWord::Other,
    }
}

// The escape that is open after a byte that a backslash takes.
fn behind_taken(byte: u8) -> StyleEscape
    ensures { style_escape_at result ≡ escapes.behind_taken byte }
{
    if byte.is_ascii_hexdigit() {
        StyleEscape::Digits(1)
    } else {
        StyleEscape::None
    }
}

// The same in a string.
fn behind_taken_in_string(escape: StyleEscape, byte: u8) -> StyleEscape
    ensures { style_escape_at result
        ≡ escapes.behind_taken_in_string (style_escape_at escape) byte }
{
    match escape {
        StyleEscape::Backslash => {
            if byte == b'\r' {
                StyleEscape::Return
            } else {
                behind_taken(byte)
            }
        }
        StyleEscape::None | StyleEscape::Digits(_) | StyleEscape::Return => StyleEscape::None,
    }
}

// The escape that is open after a byte that no backslash takes.
fn behind_byte(escape: StyleEscape, byte: u8) -> StyleEscape
    ensures { style_escape_at result ≡ escapes.behind_byte (style_escape_at escape) byte }
{
    match escape {
        StyleEscape::Digits(count) => {
            if byte.is_ascii_hexdigit() && count < 6 {
                StyleEscape::Digits(count + 1)
            } else {
                StyleEscape::None
            }
        }
        StyleEscape::None | StyleEscape::Backslash | StyleEscape::Return => StyleEscape::None,
    }
}

// Whether a backslash takes this byte of a string.
pub fn is_taken(escape: StyleEscape, byte: u8) -> bool
    ensures { result ≡ escapes.is_taken_in_style (style_escape_at escape) byte }
{
    match escape {
        StyleEscape::Backslash => true,
        StyleEscape::Return => byte == b'\n',
        StyleEscape::None | StyleEscape::Digits(_) => false,
    }
}

// How much of a percent triple has been read after a byte of the URL.
fn triple_after(triple: StyleTriple, byte: u8) -> StyleTriple
    ensures { style_triple_at result
        ≡ next_triple (style_triple_at triple) (url_classes.url_class_of byte) }
{
    match (triple, url_class_of(byte)) {
        (_, UrlClass::Percent) => StyleTriple::Percent,
        (StyleTriple::Percent, UrlClass::Hexadecimal) => StyleTriple::Digit,
        _ => StyleTriple::None,
    }
}

// A byte between tokens.
fn between(class: StyleClass, byte: u8) -> StyleScan
    ensures { style_scan_at result ≡ style_between_next class byte }
{
    match class {
        StyleClass::WordByte => StyleScan::Word(first_letter(byte), StyleEscape::None),
        StyleClass::ReverseSolidus => StyleScan::Word(StyleWord::Other, StyleEscape::Backslash),
        StyleClass::QuotationMark => StyleScan::InString(StyleQuote::Double, StyleEscape::None),
        StyleClass::Apostrophe => StyleScan::InString(StyleQuote::Single, StyleEscape::None),
        StyleClass::Solidus => StyleScan::Solidus,
        StyleClass::LessThan => StyleScan::LessThan,
        StyleClass::Blank
        | StyleClass::Newline
        | StyleClass::LeftParenthesis
        | StyleClass::RightParenthesis
        | StyleClass::Asterisk
        | StyleClass::Punctuation
        | StyleClass::OtherByte => StyleScan::Code(NO_TAILS),
    }
}

// In a word from before the text, with its escape.
fn split_word(escape: StyleEscape) -> StyleScan
    ensures { style_scan_at result ≡ style_split_word (style_escape_at escape) }
{
    match escape {
        StyleEscape::None => StyleScan::Code(CssTails {
            word: true,
            ..NO_TAILS
        }),
        StyleEscape::Backslash => StyleScan::SplitEscape(StyleEscape::Backslash),
        StyleEscape::Digits(count) => StyleScan::SplitEscape(StyleEscape::Digits(count)),
        StyleEscape::Return => StyleScan::SplitEscape(StyleEscape::Return),
    }
}

// A byte in such a word, outside a backslash.
fn in_split(escape: StyleEscape, class: StyleClass, byte: u8) -> StyleScan
    ensures { style_scan_at result ≡ style_split_next (style_escape_at escape) class byte }
{
    match (escape, class) {
        (StyleEscape::Backslash, _) => split_word(behind_taken(byte)),
        (_, StyleClass::WordByte) => split_word(behind_byte(escape, byte)),
        (_, StyleClass::ReverseSolidus) => StyleScan::SplitEscape(StyleEscape::Backslash),
        _ => between(class, byte),
    }
}

// At the beginning of a text, where some path may be in a word.
fn in_code(word: bool, class: StyleClass, byte: u8) -> StyleScan
    ensures { style_scan_at result ≡ style_code_next word class byte }
{
    if word {
        in_split(StyleEscape::None, class, byte)
    } else {
        between(class, byte)
    }
}

// In a word of this text.
fn in_word(word: StyleWord, escape: StyleEscape, class: StyleClass, byte: u8) -> StyleScan
    ensures { style_scan_at result
        ≡ style_word_next (style_word_at word) (style_escape_at escape) class byte }
{
    match (word, escape, class) {
        (_, StyleEscape::Backslash, _) => StyleScan::Word(StyleWord::Other, behind_taken(byte)),
        (_, _, StyleClass::WordByte) => {
            StyleScan::Word(next_letter(word, byte), behind_byte(escape, byte))
        }
        (_, _, StyleClass::ReverseSolidus) => {
            StyleScan::Word(StyleWord::Other, StyleEscape::Backslash)
        }
        (StyleWord::Url, _, StyleClass::LeftParenthesis) => StyleScan::Fresh,
        _ => between(class, byte),
    }
}

// After a `/`.
fn behind_solidus(class: StyleClass, byte: u8) -> StyleScan
    ensures { style_scan_at result ≡ style_solidus_next class byte }
{
    match class {
        StyleClass::Asterisk => StyleScan::Comment(false),
        _ => between(class, byte),
    }
}

// In a comment.
fn in_comment(star: bool, class: StyleClass) -> StyleScan
    ensures { style_scan_at result ≡ style_comment_next star class }
{
    match (star, class) {
        (true, StyleClass::Solidus) => StyleScan::Code(NO_TAILS),
        (_, StyleClass::Asterisk) => StyleScan::Comment(true),
        _ => StyleScan::Comment(false),
    }
}

// In a string.
fn in_string(
    taken: bool,
    quote: StyleQuote,
    escape: StyleEscape,
    class: StyleClass,
    byte: u8,
) -> StyleScan
    ensures { style_scan_at result ≡ style_string_next taken (style_quote_at quote)
        (style_escape_at escape) class byte }
{
    match (taken, quote, class) {
        (true, _, _) => StyleScan::InString(quote, behind_taken_in_string(escape, byte)),
        (false, StyleQuote::Double, StyleClass::QuotationMark)
        | (false, StyleQuote::Single, StyleClass::Apostrophe) => StyleScan::Code(NO_TAILS),
        (false, _, StyleClass::ReverseSolidus) => {
            StyleScan::InString(quote, StyleEscape::Backslash)
        }
        _ => StyleScan::InString(quote, behind_byte(escape, byte)),
    }
}

// In a URL without quotes.
fn in_bare(parts: Parts, triple: StyleTriple, class: StyleClass, byte: u8) -> StyleScan
    ensures { style_scan_at result
        ≡ style_bare_next parts (style_triple_at triple) class byte }
{
    match class {
        StyleClass::Blank | StyleClass::Newline => StyleScan::Ended,
        StyleClass::RightParenthesis => StyleScan::Code(NO_TAILS),
        _ => StyleScan::BareUrl(url_step::next(parts, byte), triple_after(triple, byte)),
    }
}

// After `url(`.
fn in_fresh(class: StyleClass, byte: u8) -> StyleScan
    ensures { style_scan_at result ≡ style_fresh_next class byte }
{
    match class {
        StyleClass::Blank | StyleClass::Newline => StyleScan::Fresh,
        StyleClass::QuotationMark => {
            StyleScan::QuotedUrl(
                StyleQuote::Double,
                StyleEscape::None,
                URL_START,
                StyleTriple::None,
            )
        }
        StyleClass::Apostrophe => {
            StyleScan::QuotedUrl(
                StyleQuote::Single,
                StyleEscape::None,
                URL_START,
                StyleTriple::None,
            )
        }
        _ => in_bare(URL_START, StyleTriple::None, class, byte),
    }
}

// In a URL in quotes.
fn in_quoted(
    taken: bool,
    quote: StyleQuote,
    escape: StyleEscape,
    parts: Parts,
    triple: StyleTriple,
    class: StyleClass,
    byte: u8,
) -> StyleScan
    ensures { style_scan_at result ≡ style_quoted_next taken (style_quote_at quote)
        (style_escape_at escape) parts (style_triple_at triple) class byte }
{
    let next = url_step::next(parts, byte);
    let read = triple_after(triple, byte);
    match (taken, quote, class) {
        (true, _, _) => {
            StyleScan::QuotedUrl(quote, behind_taken_in_string(escape, byte), next, read)
        }
        (false, StyleQuote::Double, StyleClass::QuotationMark)
        | (false, StyleQuote::Single, StyleClass::Apostrophe) => StyleScan::Ended,
        (false, _, StyleClass::ReverseSolidus) => {
            StyleScan::QuotedUrl(quote, StyleEscape::Backslash, next, read)
        }
        _ => StyleScan::QuotedUrl(quote, behind_byte(escape, byte), next, read),
    }
}

// After a URL.
fn behind_url(class: StyleClass) -> StyleScan
    ensures { style_scan_at result ≡ style_ended_next class }
{
    match class {
        StyleClass::RightParenthesis => StyleScan::Code(NO_TAILS),
        _ => StyleScan::Ended,
    }
}

/// Where a byte of text leads, if it is not refused. (CSS Syntax Level 3, section 4.3.)
pub fn next(scan: StyleScan, byte: u8) -> StyleScan
    ensures { style_scan_at result
        ≡ style_scan_next (style_scan_at scan) (style_class byte) byte }
{
    let class = class_of(byte);
    match scan {
        StyleScan::Code(tails) => in_code(tails.word, class, byte),
        StyleScan::Word(word, escape) => in_word(word, escape, class, byte),
        StyleScan::SplitEscape(escape) => in_split(escape, class, byte),
        StyleScan::Solidus => behind_solidus(class, byte),
        StyleScan::LessThan => between(class, byte),
        StyleScan::Comment(star) => in_comment(star, class),
        StyleScan::StarBefore => in_comment(true, class),
        StyleScan::InString(quote, escape) => {
            in_string(is_taken(escape, byte), quote, escape, class, byte)
        }
        StyleScan::Fresh => in_fresh(class, byte),
        StyleScan::BareUrl(parts, triple) => in_bare(parts, triple, class, byte),
        StyleScan::QuotedUrl(quote, escape, parts, triple) => {
            in_quoted(
                is_taken(escape, byte),
                quote,
                escape,
                parts,
                triple,
                class,
                byte,
            )
        }
        StyleScan::Ended => behind_url(class),
    }
}
