ghost use Rattle.std.specs.Prelude.{◌≡◌, ◌≤◌, ◌↔◌, IsTrue, Ok, Err, IfErr, IfOk, List, length};
ghost use Rattle.tpl_token.specs.Answers.{TokensAnswers, IsOrOutOfMemory, max_template_text};
ghost use Rattle.tpl_token.specs.Grammar.{AreTokens};
ghost use Rattle.tpl_token.specs.Refusals.{IsTokenRefused};
ghost use Rattle.tpl_token.specs.Spans.{AreCuts, Ascend, IsCutAt};
ghost use Rattle.tpl_token.specs.Scanning as spec;

use crate::action::{commented_at, inside_at, opened_at};
use crate::cursor::{Cursor, CursorState};
use crate::refused::TokenRefused;
use crate::text::text_at;
use crate::token::Token;
use page_io::List;
use std::alloc::Global;

/// The most bytes that a text may have.
pub const MAX_TEXT: usize = 1_048_576;

/// Whether a text has at most `MAX_TEXT` bytes, which `tokens` asks for.
pub fn fits(text: &str) -> bool
    ensures { IsTrue result ↔ (length text.now ≤ max_template_text) }
{
    text.len() <= MAX_TEXT
}

/// The tokens of the text of a template file, in order: the lexical grammar of Go's package text/template in our profile,
/// which `specs/Grammar.antt` defines and `docs/LANGUAGE.md` says in words. The error names the first thing from the
/// left that is no token where it stands, or is `Memory`. The text has at most `MAX_TEXT` bytes.
pub fn tokens(alloc: Global, text: &str) -> Result<List<Token>, TokenRefused>
    requires limit { length text.now ≤ max_template_text }
    // The answer is the text's.
    ensures answers { TokensAnswers text.now result }
    // A text that has tokens is not refused, and these are the tokens.
    ensures accepted { (list : List Token) →
        AreTokens text.now list → IsOrOutOfMemory result (Ok list) }
    // A text that is refused is refused for this cause.
    ensures refused { (why : TokenRefused) →
        IsTokenRefused text.now why → IsOrOutOfMemory result (Err why) }
    // The tokens stand one after another.
    ensures spans { IfOk result (Ascend 0 (length text.now)) }
    // The text may be cut at their ends, and where it is refused.
    ensures cuts { IfOk result (AreCuts text.now) }
    ensures offset { IfErr result (IsCutAt text.now) }
{
    let mut tokens = List::new(alloc);
    let mut cursor = Cursor {
        state: CursorState::Text { trims: false },
        at: 0,
    };
    loop {
        match advance(alloc, text, cursor) {
            Ok(Some((token, next))) => {
                tokens.push(token)?;
                cursor = next;
            }
            Ok(None) => return Ok(tokens),
            Err(refused) => return Err(refused),
        }
    }
}

// The next token, and how far the text is read with it; nothing at the end.
fn advance(
    alloc: Global,
    text: &str,
    cursor: Cursor,
) -> Result<Option<(Token, Cursor)>, TokenRefused>
    requires limit { length text.now ≤ max_template_text }
    requires within { cursor.at ≤ length text.now }
    ensures { IsOrOutOfMemory result (spec.token_advance text.now cursor) }
{
    let (_, rest) = text.as_bytes().split_at(cursor.at);
    match cursor.state {
        CursorState::Text { trims } => Ok(text_at(trims, cursor.at, rest)),
        CursorState::Opened { trims, offset } => opened_at(
            alloc, text, trims, offset, cursor.at,
        ).map(Some),
        CursorState::Action { offset } => inside_at(alloc, text, offset, cursor.at).map(Some),
        CursorState::Commented => commented_at(cursor.at, rest).map(Some),
    }
}
