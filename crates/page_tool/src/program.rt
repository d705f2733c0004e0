// The command line as `clap` reads it.
ghost use Rattle.std.specs.Prelude.{◌≡◌, IfOk, false};
ghost use Rattle.clap.specs.Words.{app_of, rule_of};
ghost use Rattle.clap.specs.declared.builder.Command.TheViews.{out-Command as fields_of};
ghost use Rattle.page_tool.specs.Program.{bare_app, directories_app, directory_app, program_app, root_app, sections_app, word_rule};
ghost use Rattle.clap.specs.Simple.{new_app};

use clap::{Arg, Command};
use std::alloc::{AllocError, Global};

/// The program, with a subcommand for each of its commands, whose words are `DIR` and `NAME`, or
/// `N`, or none.
pub fn program<'a>(alloc: Global) -> Result<Command<'a>, AllocError>
    ensures { IfOk result (λ program. app_of program ≡ program_app) }
{
    on_directories(alloc)?
        .subcommand(alone(alloc, "tokens"))?
        .subcommand(on_sections(alloc, "make")?)
}

// The program with the commands of directories.
fn on_directories<'a>(alloc: Global) -> Result<Command<'a>, AllocError>
    ensures { IfOk result (λ program. app_of program ≡ directories_app) }
{
    bare(alloc)
        .subcommand(on_directory(alloc, "check")?)?
        .subcommand(on_root(alloc, "render")?)?
        .subcommand(on_root(alloc, "explain")?)
}

// The program without its commands. No word asks it for help or its version.
fn bare<'a>(alloc: Global) -> Command<'a>
    ensures app { app_of result ≡ bare_app }
    ensures local { (fields_of result).has_globals ≡ false }
{
    Command::new(alloc, "page")
        .no_binary_name(true)
        .disable_help_flag(true)
        .disable_help_subcommand(true)
        .disable_version_flag(true)
        .subcommand_required(true)
}

// A command without words.
fn alone<'a>(alloc: Global, name: &'a str) -> Command<'a>
    ensures app { app_of result ≡ new_app name.entry.now }
    ensures local { (fields_of result).has_globals ≡ false }
{
    Command::new(alloc, name)
}

// A command of a directory.
fn on_directory<'a>(alloc: Global, name: &'a str) -> Result<Command<'a>, AllocError>
    ensures app { IfOk result (λ command. app_of command ≡ directory_app name.entry.now) }
    ensures local { IfOk result (λ command. (fields_of command).has_globals ≡ false) }
{
    Command::new(alloc, name).arg(word(alloc, "DIR"))
}

// A command of a root of a directory.
fn on_root<'a>(alloc: Global, name: &'a str) -> Result<Command<'a>, AllocError>
    ensures app { IfOk result (λ command. app_of command ≡ root_app name.entry.now) }
    ensures local { IfOk result (λ command. (fields_of command).has_globals ≡ false) }
{
    on_directory(alloc, name)?.arg(word(alloc, "NAME"))
}

// A command of a number of sections.
fn on_sections<'a>(alloc: Global, name: &'a str) -> Result<Command<'a>, AllocError>
    ensures app { IfOk result (λ command. app_of command ≡ sections_app name.entry.now) }
    ensures local { IfOk result (λ command. (fields_of command).has_globals ≡ false) }
{
    Command::new(alloc, name).arg(word(alloc, "N"))
}

// A word that a command must have.
fn word<'a>(alloc: Global, id: &'a str) -> Arg<'a>
    ensures rule { rule_of result ≡ word_rule id.entry.now }
    ensures local { result.global ≡ false }
{
    Arg::new(alloc, id).required(true)
}
