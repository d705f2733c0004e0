ghost use Rattle.std.specs.Prelude.{◌≡◌, ◌+◌, ◌<◌, ◌≤◌, Ok, length, take, drop};
ghost use Rattle.std.specs.List.{prefix_len, suffix_len};
ghost use Rattle.tpl_token.specs.Answers.{max_template_text};
ghost use Rattle.tpl_token.specs.Characters.{is_white};
ghost use Rattle.tpl_token.specs.Texts.{kept_end, kept_start, text_len};
ghost use Rattle.tpl_token.specs.Scanning as spec;
ghost use Rattle.tpl_token.specs.Texts as texts;

use crate::bytes::{begins, begins_white, bytes_before, white_end_len, white_len};
use crate::cursor::{Cursor, CursorState};
use crate::token::{Token, TokenKind};

/// The next token where text stands: the text, or the next action's `{{`. There is none at the end.
pub fn text_at(trims: bool, at: usize, rest: &[u8]) -> Option<(Token, Cursor)>
    requires limit { at + length rest.now ≤ max_template_text }
    ensures { result ≡ spec.text_token_at trims at rest.now }
{
    let len = bytes_before(b"{{", rest);
    let (text, after) = rest.split_at(len);
    let start = if trims { white_len(text) } else { 0 };
    let end = if trims_before(after) {
        len - white_end_len(text)
    } else {
        len
    };
    if start < end {
        let token = Token {
            kind: TokenKind::Text,
            start: (at + start) as u32,
            end: (at + end) as u32,
        };
        let cursor = Cursor {
            state: CursorState::Text { trims: false },
            at: at + len,
        };
        return Some((token, cursor));
    }
    open_at(at + len, after)
}

// Whether `{{-` stands at the beginning, and white space after it.
fn trims_before(rest: &[u8]) -> bool
    ensures { result ≡ texts.trims_before rest.now }
{
    if !begins(b"{{-", rest) {
        return false;
    }
    let (_, after) = rest.split_at(3);
    begins_white(after)
}

// The `{{` of an action at the beginning, unless there is nothing.
fn open_at(at: usize, rest: &[u8]) -> Option<(Token, Cursor)>
    requires limit { at + length rest.now ≤ max_template_text }
    ensures { result ≡ spec.open_at at rest.now }
{
    if rest.is_empty() {
        return None;
    }
    let trims = trims_before(rest);
    let len = if trims { 3 } else { 2 };
    Some(Cursor::step(
        TokenKind::Open,
        at,
        len,
        CursorState::Opened {
            trims,
            offset: at as u32,
        },
    ))
}
