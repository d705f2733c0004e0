// The listing of a page's tokens.
ghost use Rattle.std.specs.Prelude.{◌≡◌, ◌++◌, [], IfOk, OnOk};
ghost use Rattle.page_lexer.specs.Characters as characters_spec;
ghost use Rattle.page_lexer.specs.Printing as spec;

use crate::characters::shown_text;
use crate::parts::part;
use crate::print_lines::{push_quoted_line, push_word_line};
use crate::print_pieces::push_pieces;
use crate::print_tags::{push_end, push_start};
use crate::token::{PageToken, What};
use page_io::{List, Memory, Text};
use page_piece::Piece;
use std::alloc::Global;

/// A line for each token of a page, and below it one for each of its attributes and pieces. A token that holds no text shows its
/// bytes in the page, as UTF-8, where a byte of no well formed character is U+FFFD; of places past the page's end, what there is.
/// Texts are written as `js_value` writes them. Takes time in proportion to the page. Fails only if allocation fails.
pub fn print_tokens(alloc: Global, page: &[u8], tokens: &List<PageToken>) -> Result<Text, Memory>
    ensures { IfOk result (λ text. text ≡ spec.printed_tokens page.now tokens.now) }
{
    let mut out = Text::new(alloc);
    for token in tokens.as_slice() {
        let bytes = part(page, token.from as usize, token.to as usize);
        push_token(&mut out, bytes, &token.what)?;
    }
    Ok(out)
}

// Appends the lines of a token, of which these are the bytes.
fn push_token(out: &mut Text, bytes: &[u8], what: &What) -> Result<(), Memory>
    ensures { OnOk result (out.new ≡ out.old ++ spec.token_lines bytes.now what.now) }
{
    match what {
        What::Text => push_bytes(out, "text", bytes),
        What::Start(tag) => push_start(out, tag),
        What::End(tag) => push_end(out, tag),
        What::Comment => push_bytes(out, "comment", bytes),
        What::Doctype => push_bytes(out, "doctype", bytes),
        What::Block => push_bytes(out, "block", bytes),
        What::Escape => push_word_line(out, "", "escape"),
        What::Unfinished => push_bytes(out, "unfinished", bytes),
        What::Script(pieces) => push_pieces_under(out, "script", pieces),
        What::Style(pieces) => push_pieces_under(out, "style", pieces),
    }
}

// Appends a line of a word and the text of bytes.
fn push_bytes(out: &mut Text, word: &str, bytes: &[u8]) -> Result<(), Memory>
    ensures { OnOk result (out.new
        ≡ out.old ++ spec.quoted_line [] word.now (characters_spec.shown_text bytes.now)) }
{
    let text = shown_text(out.allocator(), bytes)?;
    push_quoted_line(out, "", word, text.as_str())
}

// Appends a line of a word, and below it the pieces.
fn push_pieces_under(out: &mut Text, word: &str, pieces: &List<Piece>) -> Result<(), Memory>
    ensures { OnOk result (out.new ≡ out.old ++ spec.pieces_under_token word.now pieces.now) }
{
    push_word_line(out, "", word)?;
    push_pieces(out, "  ", pieces)
}
