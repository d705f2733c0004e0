ghost use Rattle.std.specs.Prelude.{◌≡◌, ◌≤◌, IfOk, length};
ghost use Rattle.std.specs.List.{All};
ghost use Rattle.tpl_symbol.specs.Symbols.{IsFineSymbol, symbols_of};
ghost use Rattle.tpl_token.specs.Answers.{max_template_text};
ghost use Rattle.tpl_token.specs.Spans.{AreCuts, Ascend};

use crate::joining::put_kind;
use crate::kind::{begins_comment, is_comment, kind_of};
use crate::line::LineCounter;
use crate::symbol::Symbol;
use page_io::{List, Memory};
use std::alloc::Global;
use tpl_token::Token;

/// The symbols of a text with these tokens, as `specs/Symbols.antt` defines them: comments are left out with their
/// delimiters, names are told apart, and texts with nothing but comments between them are joined. The text and its tokens
/// are those of `tpl_token::tokens`. Fails only if allocation fails.
pub fn symbols(alloc: Global, text: &str, tokens: &[Token]) -> Result<List<Symbol>, Memory>
    requires limit { length text.now ≤ max_template_text }
    requires spans { Ascend 0 (length text.now) tokens.now }
    requires cuts { AreCuts text.now tokens.now }
    // These are the symbols.
    ensures all { IfOk result (λ symbols. symbols ≡ symbols_of text.now tokens.now) }
    // No text is empty or longer than a file, and its line or a seam's plus its length is below 2 ^ 32.
    ensures texts { IfOk result (All IsFineSymbol) }
{
    let mut symbols = Vec::with_capacity(alloc, tokens.len())?;
    let mut counter = LineCounter { at: 0, line: 1 };
    let mut end = 0;
    let mut comment_before = false;
    let mut left = tokens;
    while let Some((token, rest)) = left.split_first() {
        let last = counter.up_to(text, token.start.saturating_sub(1));
        counter = last.up_to(text, token.start);
        let kind = kind_of(
            alloc,
            text,
            token,
            last.line,
            comment_before,
            begins_comment(rest),
        )?;
        put_kind(&mut symbols, kind, counter.line, token.start == end)?;
        end = token.end;
        comment_before = is_comment(token);
        left = rest;
    }
    Ok(List::from(symbols))
}
