ghost use Rattle.std.specs.Prelude.{◌≡◌, IfOk};
ghost use Rattle.page_check.specs.RefusalTexts.{refusal_text};
ghost use Rattle.page_check.specs.RefusalTexts as spec;

use crate::cause_names::{code_name, parse_name};
use crate::path_lines::push_seen_lines;
use crate::refused::MakeRefused;
use page_datum::legible;
use page_io::{Memory, Text};
use place_infer::SetRefused;
use place_show::Showing;
use std::alloc::Global;
use tpl_parse::FileRefused;

/// The lines of a refusal. Fails only if allocation fails.
pub fn lines_of(alloc: Global, refused: &MakeRefused) -> Result<Text, Memory>
    ensures { IfOk result (λ lines. lines ≡ refusal_text refused.now) }
{
    match refused {
        MakeRefused::TooLarge(name) => file_line(alloc, "TooLarge", name),
        MakeRefused::NotUtf8(name) => file_line(alloc, "NotUtf8", name),
        MakeRefused::File(name, why) => file_text(alloc, name, why),
        MakeRefused::TooManyTemplates => Text::copy_of(alloc, "refused TooManyTemplates\n"),
        MakeRefused::NoTemplates => Text::copy_of(alloc, "refused NoTemplates\n"),
        MakeRefused::Set(why) => set_text(alloc, why),
        MakeRefused::Memory => Ok(Text::new(alloc)),
    }
}

// A cause and a file.
fn file_line(alloc: Global, cause: &str, name: &Text) -> Result<Text, Memory>
    ensures { IfOk result (λ line. line ≡ spec.file_line cause.now name.now) }
{
    let name = legible(alloc, name.as_str())?;
    let name = name.as_str();
    Ok(Text::from(format!(in alloc; "refused {cause} {name}\n")?))
}

// A cause, with the file and the line where it is.
fn cause_line(alloc: Global, cause: &str, name: &Text, line: u32) -> Result<Text, Memory>
    ensures { IfOk result (λ text. text ≡ spec.cause_line cause.now name.now line) }
{
    let name = legible(alloc, name.as_str())?;
    let name = name.as_str();
    Ok(Text::from(format!(in alloc; "refused {cause} {name}:{line}\n")?))
}

// Why a file is refused.
fn file_text(alloc: Global, name: &Text, why: &FileRefused) -> Result<Text, Memory>
    ensures { IfOk result (λ text. text ≡ spec.file_text name.now why.now) }
{
    match why {
        FileRefused::Token(why, line) => cause_line(alloc, why.name(), name, *line),
        FileRefused::Parse(why, line) => cause_line(alloc, parse_name(*why), name, *line),
        FileRefused::Memory => Ok(Text::new(alloc)),
    }
}

// Why a set has no chart.
fn set_text(alloc: Global, why: &SetRefused) -> Result<Text, Memory>
    ensures { IfOk result (λ text. text ≡ spec.refused_set_text why.now) }
{
    match why {
        SetRefused::Shows(showing) => showing_text(alloc, showing),
        SetRefused::TooManyDerived => Text::copy_of(alloc, "refused TooManyDerived\n"),
        SetRefused::Memory => Ok(Text::new(alloc)),
    }
}

// An error, and the paths that have it.
fn showing_text(alloc: Global, showing: &Showing) -> Result<Text, Memory>
    ensures { IfOk result (λ text. text ≡ spec.showing_text showing.now) }
{
    let mut text = cause_line(
        alloc,
        code_name(showing.code),
        &showing.template,
        showing.line,
    )?;
    push_seen_lines(&mut text, showing.paths.as_slice())?;
    Ok(text)
}
