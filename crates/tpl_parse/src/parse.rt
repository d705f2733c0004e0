ghost use Rattle.std.specs.Prelude.{◌≡◌, ◌≤◌, All, length};
ghost use Rattle.tpl_parse.specs.Files.{AcceptsFile, ParseFileAnswers, RefusesFile};
ghost use Rattle.tpl_parse.specs.Parsing.{ParseTokensAnswers, parsed};
ghost use Rattle.tpl_parse.specs.Parsing.{parsed_text};
ghost use Rattle.tpl_parse.specs.Actions.{ActionAnswers};
ghost use Rattle.tpl_symbol.specs.Symbols.{IsFineSymbol};
ghost use Rattle.tpl_token.specs.Answers.{max_template_text};
ghost use Rattle.tpl_token.specs.Spans.{AreCuts, Ascend, IsCutAt};
ghost use Rattle.tpl_parse.specs.Files as spec;
ghost use Rattle.tpl_parse.specs.Parsing as parsing;

use crate::action::{ActionState, Position};
use crate::ending::finish;
use crate::reader::{ROOM, run_symbols};
use crate::refused::{FileRefused, RefusalCause};
use page_io::{List, Memory, Stop};
use std::alloc::Global;
use tpl_build::{Def, File, empty_builder};
use tpl_pipe::ParseRefused;
use tpl_symbol::{Symbol, TextEnd, line_of, symbols, text_end};
use tpl_token::{Token, TokenRefused, tokens};

/// The definitions of the template file with this name and text, of at most `tpl_token::MAX_TEXT` bytes: the grammar of Go's
/// package text/template in our profile, which `specs/Grammar.antt` defines over the symbols of the text, and
/// `docs/LANGUAGE.md` says in words. The error names why the text has no tokens, or the first token at which no
/// template goes on, with its line.
pub fn parse_file(alloc: Global, name: &str, text: &str) -> Result<File, FileRefused>
    requires limit { length text.now ≤ max_template_text }
    // The answer is the file's.
    ensures answers { ParseFileAnswers name.now text.now result }
    // A file that has definitions is not refused, and these are the definitions.
    ensures accepted { AcceptsFile name.now text.now result }
    // A file that is refused is refused for this cause.
    ensures refused { RefusesFile name.now text.now result }
{
    match tokens(alloc, text) {
        Ok(tokens) => parse_tokens(alloc, name, text, tokens),
        Err(why) => Err(token_refusal(text, why)),
    }
}

// The same tokens in no more memory than they need.
fn fitted(tokens: List<Token>) -> List<Token>
    ensures { result ≡ tokens }
{
    let mut items = tokens.into_vec();
    items.shrink_to_fit();
    List::from(items)
}

// A refusal of tokens, with the line of its offset.
fn token_refusal(text: &str, why: TokenRefused) -> FileRefused
    requires limit { length text.now ≤ max_template_text }
    requires offset { IsCutAt text.now why }
    ensures { result ≡ parsing.token_refusal text.now why }
{
    match place_of(why) {
        Some(offset) => FileRefused::Token(why, line_of(text, offset)),
        None => FileRefused::Memory,
    }
}

// The offset that a refusal of tokens names.
fn place_of(why: TokenRefused) -> Option<u32>
    ensures { result ≡ spec.refusal_offset why }
{
    match why {
        TokenRefused::UnclosedAction(offset) => Some(offset),
        TokenRefused::BadCharacter(offset) => Some(offset),
        TokenRefused::UnclosedString(offset) => Some(offset),
        TokenRefused::UnclosedComment(offset) => Some(offset),
        TokenRefused::BadNumber(offset) => Some(offset),
        TokenRefused::BadDelimiter(offset) => Some(offset),
        TokenRefused::BadEscape(offset) => Some(offset),
        TokenRefused::Memory => None,
    }
}

// The definitions of a file with these tokens, whose memory is free again as soon as the symbols are there.
fn parse_tokens(
    alloc: Global,
    name: &str,
    text: &str,
    tokens: List<Token>,
) -> Result<File, FileRefused>
    requires limit { length text.now ≤ max_template_text }
    requires spans { Ascend 0 (length text.now) tokens }
    requires cuts { AreCuts text.now tokens }
    ensures { ParseTokensAnswers result (parsed_text name.now text.now tokens) }
{
    let tokens = fitted(tokens);
    let Ok(symbols) = symbols(alloc, text, tokens.as_slice()) else {
        return Err(FileRefused::Memory);
    };
    drop(tokens);
    match parse_symbols(alloc, name, symbols, end_of(text)) {
        Ok(defs) => Ok(File { defs }),
        Err(Stop::Cause((why, line))) => Err(FileRefused::Parse(why, line)),
        Err(Stop::Memory) => Err(FileRefused::Memory),
    }
}

// Where a text ends.
fn end_of(text: &str) -> TextEnd
    requires limit { length text.now ≤ max_template_text }
    ensures { result ≡ parsing.parser_end text.now }
{
    text_end(text)
}

// The definitions of a file with these symbols.
fn parse_symbols(
    alloc: Global,
    name: &str,
    symbols: List<Symbol>,
    end: TextEnd,
) -> Result<List<Def>, Stop<RefusalCause>>
    requires { All IsFineSymbol symbols }
    ensures { ActionAnswers result (parsed name.now end symbols) }
{
    let mut builder = empty_builder(alloc, ROOM);
    let mut position = Position::Outside;
    let mut action = ActionState::Start;
    match run_symbols(alloc, &mut builder, &mut position, &mut action, symbols) {
        Ok(()) => match position {
            Position::Outside => finish(alloc, builder, name, end),
            Position::Inside(_) => Err(Stop::Cause((ParseRefused::UnclosedBlock, end.line))),
        },
        Err(stop) => Err(stop),
    }
}
