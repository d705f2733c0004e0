// The tokens of the content of an element that has no tags in it.
ghost use Rattle.std.specs.Prelude.{◌≡◌, ◌+◌, ◌++◌, ◌<◌, ◌≤◌, OnOk, length};
ghost use Rattle.page_lexer.specs.Contents as spec;

use crate::characters::shown_text;
use crate::parts::part;
use crate::token::{PageToken, What};
use page_io::{List, Memory};
use page_script::script_pieces;
use page_style::style_pieces;
use place_core::Element;
use std::alloc::Global;

/// Appends a token from one place to another.
pub fn push_token(
    tokens: &mut List<PageToken>,
    from: usize,
    to: usize,
    what: What,
) -> Result<(), Memory>
    ensures { OnOk result (tokens.new ≡ tokens.old ++ spec.one_token from to what) }
{
    tokens.push(PageToken {
        from: from as u64,
        to: to as u64,
        what,
    })
}

/// Appends the token of a text from one place to another, where it is not empty.
pub fn push_text(tokens: &mut List<PageToken>, from: usize, to: usize) -> Result<(), Memory>
    ensures { OnOk result (tokens.new ≡ tokens.old ++ spec.text_tokens from to) }
{
    if from < to {
        return push_token(tokens, from, to, What::Text);
    }
    Ok(())
}

/// Appends the tokens of the content of an element from one place to another.
pub fn push_content(
    alloc: Global,
    tokens: &mut List<PageToken>,
    page: &[u8],
    element: Element,
    from: usize,
    to: usize,
) -> Result<(), Memory>
    requires to { to ≤ length page.now }
    ensures { OnOk result (tokens.new ≡ tokens.old ++ spec.content_tokens page.now element from to) }
{
    if to <= from {
        return Ok(());
    }
    match element {
        Element::Title | Element::Textarea => push_token(tokens, from, to, What::Text),
        Element::Style => push_style(alloc, tokens, page, from, to),
        Element::Script => {
            push_script(alloc, tokens, page, from, to)?;
            push_escapes(tokens, from, part(page, from, to))
        }
        Element::DataBlock => {
            push_token(tokens, from, to, What::Block)?;
            push_escapes(tokens, from, part(page, from, to))
        }
        Element::Other => Ok(()),
    }
}

// The token of a style that has a piece.
fn push_style(
    alloc: Global,
    tokens: &mut List<PageToken>,
    page: &[u8],
    from: usize,
    to: usize,
) -> Result<(), Memory>
    ensures { OnOk result (tokens.new ≡ tokens.old ++ spec.style_tokens page.now from to) }
{
    let text = shown_text(alloc, part(page, from, to))?;
    let pieces = style_pieces(alloc, text.as_str())?;
    if pieces.as_slice().is_empty() {
        return Ok(());
    }
    push_token(tokens, from, to, What::Style(pieces))
}

// The token of a script that has a piece.
fn push_script(
    alloc: Global,
    tokens: &mut List<PageToken>,
    page: &[u8],
    from: usize,
    to: usize,
) -> Result<(), Memory>
    ensures { OnOk result (tokens.new ≡ tokens.old ++ spec.script_tokens page.now from to) }
{
    let text = shown_text(alloc, part(page, from, to))?;
    let pieces = script_pieces(alloc, text.as_str())?;
    if pieces.as_slice().is_empty() {
        return Ok(());
    }
    push_token(tokens, from, to, What::Script(pieces))
}

// A token for each `<!--` in bytes that begin at a place.
fn push_escapes(tokens: &mut List<PageToken>, from: usize, bytes: &[u8]) -> Result<(), Memory>
    requires fits { from + length bytes.now < 0x8000_0000_0000_0000 }
    ensures { OnOk result (tokens.new ≡ tokens.old ++ spec.escapes from bytes.now) }
{
    let mut rest = bytes;
    let mut at = from;
    while let Some((_, after)) = rest.split_first() {
        if rest.starts_with(b"<!--") {
            push_token(tokens, at, at + 4, What::Escape)?;
        }
        at += 1;
        rest = after;
    }
    Ok(())
}
