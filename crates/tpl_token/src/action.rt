ghost use Rattle.std.specs.Prelude.{◌≡◌, ◌+◌, ◌<◌, ◌≤◌, length, drop};
ghost use Rattle.std.specs.List.{prefix_len};
ghost use Rattle.tpl_token.specs.Answers.{IsOrOutOfMemory, max_template_text};
ghost use Rattle.tpl_token.specs.Characters.{is_white};
ghost use Rattle.tpl_token.specs.Grammar.{gap};
ghost use Rattle.tpl_token.specs.Scanning as spec;

use crate::bytes::{begins, bytes_before, white_len};
use crate::cursor::{Cursor, CursorState};
use crate::lexeme::lexeme_at;
use crate::refused::TokenRefused;
use crate::token::{Token, TokenKind};
use std::alloc::Global;

/// The next token at once after the `{{` of an action: its comment, or what `inside_at` finds.
pub fn opened_at(
    alloc: Global,
    text: &str,
    trims: bool,
    opened: u32,
    at: usize,
) -> Result<(Token, Cursor), TokenRefused>
    requires limit { length text.now ≤ max_template_text }
    requires within { at ≤ length text.now }
    ensures { IsOrOutOfMemory result (spec.opened_at trims opened at (drop at text.now)) }
{
    let (_, rest) = text.as_bytes().split_at(at);
    if trims && begins(b" /*", rest) {
        let (_, body) = rest.split_at(3);
        return comment_at(opened, at + 1, body);
    }
    if !trims && begins(b"/*", rest) {
        let (_, body) = rest.split_at(2);
        return comment_at(opened, at, body);
    }
    inside_at(alloc, text, opened, at)
}

// The comment whose `/*` stands at an offset before these bytes.
fn comment_at(opened: u32, at: usize, body: &[u8]) -> Result<(Token, Cursor), TokenRefused>
    requires limit { at + 2 + length body.now ≤ max_template_text }
    ensures { IsOrOutOfMemory result (spec.comment_token_at opened at body.now) }
{
    let len = bytes_before(b"*/", body);
    if len < body.len() {
        return Ok(Cursor::step(TokenKind::Comment, at, len + 4, CursorState::Commented));
    }
    Err(TokenRefused::UnclosedComment(opened))
}

/// The end of an action after its comment.
pub fn commented_at(at: usize, rest: &[u8]) -> Result<(Token, Cursor), TokenRefused>
    requires limit { at + length rest.now ≤ max_template_text }
    ensures { IsOrOutOfMemory result (spec.commented_at at rest.now) }
{
    if begins(b"}}", rest) {
        return Ok(Cursor::step(TokenKind::Close, at, 2, CursorState::Text { trims: false }));
    }
    if begins(b" -}}", rest) {
        return Ok(Cursor::step(
            TokenKind::Close,
            at + 1,
            3,
            CursorState::Text { trims: true },
        ));
    }
    Err(TokenRefused::BadDelimiter(at as u32))
}

/// The next token inside an action, after white space or none: one of its own, or its end.
pub fn inside_at(
    alloc: Global,
    text: &str,
    opened: u32,
    at: usize,
) -> Result<(Token, Cursor), TokenRefused>
    requires limit { length text.now ≤ max_template_text }
    requires within { at ≤ length text.now }
    ensures { IsOrOutOfMemory result (spec.inside_at opened at (drop at text.now)) }
{
    let (_, rest) = text.as_bytes().split_at(at);
    let spaces = white_len(rest);
    inner_at(alloc, text, opened, spaces, at + spaces)
}

// The same at an offset where no white space stands, but that many bytes of it before.
fn inner_at(
    alloc: Global,
    text: &str,
    opened: u32,
    spaces: usize,
    at: usize,
) -> Result<(Token, Cursor), TokenRefused>
    requires limit { length text.now ≤ max_template_text }
    requires within { at ≤ length text.now }
    ensures { IsOrOutOfMemory result (spec.inner_at opened spaces at (drop at text.now)) }
{
    let (_, rest) = text.as_bytes().split_at(at);
    if rest.is_empty() {
        return Err(TokenRefused::UnclosedAction(opened));
    }
    if begins(b"}}", rest) {
        return Ok(Cursor::step(TokenKind::Close, at, 2, CursorState::Text { trims: false }));
    }
    if spaces > 0 && begins(b"-}}", rest) {
        return Ok(Cursor::step(TokenKind::Close, at, 3, CursorState::Text { trims: true }));
    }
    match lexeme_at(alloc, text, at) {
        Ok((kind, len)) => Ok(Cursor::step(kind, at, len, CursorState::Action { offset: opened })),
        Err(refused) => Err(refused),
    }
}
