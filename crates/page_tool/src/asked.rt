ghost use Rattle.std.specs.Prelude.{◌≡◌, true, IfOk, option_map};
ghost use Rattle.clap.specs.Words.{subcommand_rows_of};
ghost use Rattle.page_tool.specs.Asking.{ReadWordsAnswers, command_asked, command_asked_or_none};
ghost use Rattle.page_tool.specs.Program.{command_in, command_with};
ghost use Rattle.page_tool.specs.Words.{texts, command_of, is_command, making};
ghost use Rattle.page_tool.specs.Words as spec;

use crate::program::program;
use crate::words::{are_command, sections_in};
use clap::ArgMatches;
use clap::error::ErrorKind;
use page_io::Memory;
use std::alloc::Global;

/// A command, with its directory and the name of its root, or with a number of sections, or alone.
#[derive(Clone, Copy)]
pub enum Asked<'a> {
    /// `check DIR`.
    Check { dir: &'a str },
    /// `render DIR NAME`.
    Render { dir: &'a str, root: &'a str },
    /// `explain DIR NAME`.
    Explain { dir: &'a str, root: &'a str },
    /// `tokens`.
    Tokens,
    /// `make N`.
    Make { sections: u32 },
}

/// Why words are not read.
#[derive(Debug, Drop)]
pub enum WordsRefused {
    /// They are no command.
    Usage,
    /// Out of memory.
    Memory,
}

/// The command that words are.
pub fn read_words<'a>(alloc: Global, words: &'a [String]) -> Result<Asked<'a>, WordsRefused>
    ensures { ReadWordsAnswers (command_of (texts words.now)) result }
{
    if !are_command(words) {
        return Err(WordsRefused::Usage);
    }
    match parse_words(alloc, words) {
        Ok(asked) => Ok(asked),
        Err(Memory) => Err(WordsRefused::Memory),
    }
}

// The command that words are, as `clap` reads them. It takes each command, so that its only error
// is out of memory.
fn parse_words<'a>(alloc: Global, words: &'a [String]) -> Result<Asked<'a>, Memory>
    requires { is_command (command_of (texts words.now)) ≡ true }
    ensures { IfOk result (λ asked. command_asked asked ≡ command_of (texts words.now)) }
{
    let program = program(alloc)?;
    let matches = match program.try_get_matches_from(words) {
        Ok(matches) => matches,
        Err(error) => match error.kind() {
            ErrorKind::OutOfMemory => return Err(Memory),
            _ => unreachable!(),
        },
    };
    match asked_in(&matches) {
        Some(asked) => Ok(asked),
        None => unreachable!(),
    }
}

// The command that matches have, if they have one of the program's.
fn asked_in<'a>(matches: &ArgMatches<'a>) -> Option<Asked<'a>>
    ensures { command_asked_or_none result ≡ command_in (subcommand_rows_of matches.now) }
{
    let (name, values) = matches.subcommand()?;
    let (dir, number, root) = (
        values.get_str("DIR"),
        values.get_str("N"),
        values.get_str("NAME"),
    );
    asked_with(name, dir, number, root)
}

// The command of a name and these words, if there is one.
fn asked_with<'a>(
    name: &str,
    dir: Option<&'a str>,
    number: Option<&'a str>,
    root: Option<&'a str>,
) -> Option<Asked<'a>>
    ensures { command_asked_or_none result ≡ command_with name.now
        (option_map (λ dir. dir.now) dir.entry) (option_map (λ number. number.now) number.entry)
        (option_map (λ root. root.now) root.entry) }
{
    match (name, dir, number, root) {
        ("check", Some(dir), None, None) => Some(Asked::Check { dir }),
        ("render", Some(dir), None, Some(root)) => Some(Asked::Render { dir, root }),
        ("explain", Some(dir), None, Some(root)) => Some(Asked::Explain { dir, root }),
        ("tokens", None, None, None) => Some(Asked::Tokens),
        ("make", None, Some(number), None) => asked_to_make(number),
        _ => None,
    }
}

// The command that makes as many sections as a word says, if it is a number of sections.
fn asked_to_make<'a>(number: &str) -> Option<Asked<'a>>
    ensures { command_asked_or_none result ≡ making (spec.sections_in number.now) }
{
    let sections = sections_in(number)?;
    Some(Asked::Make { sections })
}
