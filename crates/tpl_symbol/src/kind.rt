ghost use Rattle.std.specs.Prelude.{◌≡◌, ◌-◌, ◌<◌, ◌≤◌, IfOk, length};
ghost use Rattle.std.specs.Str.{IsCharBoundary};
ghost use Rattle.tpl_symbol.specs.Kinds.{symbol_kind_at};
ghost use Rattle.tpl_symbol.specs.Lines as spec;
ghost use Rattle.tpl_symbol.specs.Kinds as kinds;

use crate::name::name_kind;
use crate::symbol::SymbolKind;
use page_io::{List, Memory, Text};
use std::alloc::Global;
use tpl_token::{Token, TokenKind};

/// Whether a token is a comment.
pub fn is_comment(token: &Token) -> bool
    ensures { result ≡ kinds.is_comment token.now }
{
    matches!(token.kind, TokenKind::Comment)
}

/// Whether the first of these tokens is a comment.
pub fn begins_comment(tokens: &[Token]) -> bool
    ensures { result ≡ kinds.token_begins_comment tokens.now }
{
    match tokens.first() {
        Some(token) => is_comment(token),
        None => false,
    }
}

/// What a token is to the grammar, where a comment comes right before or right after it, or not. Comments are nothing, nor
/// are the `{{` and `}}` around them. `before` is the line of the byte before the token.
pub fn kind_of(
    alloc: Global,
    text: &str,
    token: &Token,
    before: u32,
    comment_before: bool,
    comment_after: bool,
) -> Result<Option<SymbolKind>, Memory>
    requires some { token.now.start < token.now.end }
    requires within { token.now.end ≤ length text.now }
    requires start { IsCharBoundary text.now token.now.start }
    requires end { IsCharBoundary text.now token.now.end }
    requires line { before ≡ spec.line_of text.now (token.now.start - 1) }
    ensures { IfOk result (λ kind.
        kind ≡ symbol_kind_at text.now token.now comment_before comment_after) }
{
    let bytes = bytes_of(text, token);
    let (start, end) = (token.start, token.end);
    Ok(match &token.kind {
        TokenKind::Text => Some(SymbolKind::Text(Text::copy_of(alloc, bytes)?, List::new(alloc))),
        TokenKind::Open if comment_after => None,
        TokenKind::Open => Some(SymbolKind::Open { start, before }),
        TokenKind::Close if comment_before => None,
        TokenKind::Close => Some(SymbolKind::Close { end }),
        TokenKind::Comment => None,
        TokenKind::Name => Some(name_kind(bytes)),
        TokenKind::Field => Some(SymbolKind::Field(name_of(alloc, '.', bytes)?)),
        TokenKind::Dot => Some(SymbolKind::Dot),
        TokenKind::Variable => Some(SymbolKind::Variable(name_of(alloc, '$', bytes)?)),
        TokenKind::Number(value) => Some(SymbolKind::Number(*value)),
        TokenKind::Str(value) => Some(SymbolKind::Str(Text::copy_of(alloc, value.as_str())?)),
        TokenKind::Declare => Some(SymbolKind::Declare),
        TokenKind::Assign => Some(SymbolKind::Assign),
        TokenKind::Bar => Some(SymbolKind::Bar),
        TokenKind::Comma => Some(SymbolKind::Comma),
        TokenKind::Left => Some(SymbolKind::Left),
        TokenKind::Right => Some(SymbolKind::Right),
    })
}

// The bytes of a token.
fn bytes_of<'a>(text: &'a str, token: &Token) -> &'a str
    requires some { token.now.start < token.now.end }
    requires within { token.now.end ≤ length text.now }
    requires start { IsCharBoundary text.now token.now.start }
    requires end { IsCharBoundary text.now token.now.end }
    ensures { result.now ≡ kinds.token_bytes text.now token.now }
{
    &text[token.start as usize..token.end as usize]
}

// The name after this mark.
fn name_of(alloc: Global, mark: char, bytes: &str) -> Result<Text, Memory>
    requires ascii { mark < 128 }
    ensures { IfOk result (λ name. name ≡ kinds.unmarked mark bytes.now) }
{
    Text::copy_of(alloc, unmarked(mark, bytes))
}

// A text without this mark at its prefix.
fn unmarked(mark: char, text: &str) -> &str
    requires ascii { mark < 128 }
    ensures { result.now ≡ kinds.unmarked mark text.now }
{
    match text.strip_prefix(mark) {
        Some(rest) => rest,
        None => text,
    }
}
