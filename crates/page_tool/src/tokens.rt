ghost use Rattle.std.specs.Prelude.{◌≡◌, ◌≤◌, ℕ, IfOk, IsErrOf, OnOk, List, Option};
ghost use Rattle.std.specs.Io.KnownBytes.{IsAtEnd};
ghost use Rattle.page_io.specs.Causes.{Rose};
ghost use Rattle.page_io.specs.FolderContents.{FolderContents};
ghost use Rattle.page_tool.specs.Devices.{devices};
ghost use Rattle.page_tool.specs.Listing.{ReadInputAnswers, ListTokensAnswers, TokensTextAnswers, tokens_text};
ghost use Rattle.page_tool.specs.Runs.{Runs};
ghost use Rattle.page_tool.specs.Words as command;

use crate::report::report;
use crate::set::write_text;
use crate::status::Status;
use crate::stop::CommandStop;
use page_datum::DataRefused;
use page_io::{Bytes, IoStop, Memory, Sink, Source, Text, read_up_to};
use page_lexer::{print_tokens, read_page};
use std::alloc::Global;

/// The most bytes that a page may have.
const MAX_PAGE: usize = 16_777_216;

/// The command `tokens`: writes the tokens of the page that the input is, or reports what stopped
/// it. It is given no folder, so its contract holds for every folder.
pub fn tokens<I: Source, O: Sink, E: Sink>(
    alloc: Global,
    input: &mut I,
    out: &mut O,
    err: &mut E,
) -> Status
    ensures { (held : Option FolderContents) (folder_faults : ℕ) → Runs command.tokens
        (devices held folder_faults (I.left input.old) (I.faults input.old)
        (O.taken out.old) (O.faults out.old) (E.taken err.old) (E.faults err.old))
        (devices held folder_faults (I.left input.new) (I.faults input.new)
        (O.taken out.new) (O.faults out.new) (E.taken err.new) (E.faults err.new)) result }
{
    match write_tokens(alloc, input, out) {
        Ok(()) => Status::Ok,
        Err(stop) => report(alloc, err, &stop, ""),
    }
}

// Writes the tokens of the page that an input is.
fn write_tokens<I: Source, O: Sink>(
    alloc: Global,
    input: &mut I,
    out: &mut O,
) -> Result<(), CommandStop>
    ensures answers { ListTokensAnswers (I.left input.old) (O.taken out.old) (O.taken out.new) result }
    ensures end { OnOk result (IsAtEnd (I.left input.new)) }
    ensures input_later { I.faults input.old ≤ I.faults input.new }
    ensures out_later { O.faults out.old ≤ O.faults out.new }
    ensures read { IsErrOf result CommandStop.Read
        → Rose (I.faults input.old) (I.faults input.new) }
    ensures write { IsErrOf result CommandStop.Write → Rose (O.faults out.old) (O.faults out.new) }
{
    match text_of_input(alloc, input) {
        Ok(text) => write_text(out, &text),
        Err(stop) => Err(stop),
    }
}

// The tokens of the page that an input is, as they are printed.
fn text_of_input<I: Source>(alloc: Global, input: &mut I) -> Result<Text, CommandStop>
    ensures text { TokensTextAnswers (I.left input.old) result }
    ensures end { OnOk result (IsAtEnd (I.left input.new)) }
    ensures later { I.faults input.old ≤ I.faults input.new }
    ensures read { IsErrOf result CommandStop.Read
        → Rose (I.faults input.old) (I.faults input.new) }
    ensures write { IsErrOf result CommandStop.Write → ⊥ }
{
    let page = match read_input(alloc, input) {
        Ok(page) => page,
        Err(stop) => return Err(stop),
    };
    match text_of(alloc, page.as_slice()) {
        Ok(text) => Ok(text),
        Err(Memory) => Err(CommandStop::Memory),
    }
}

// The tokens of a page, as they are printed.
fn text_of(alloc: Global, page: &[u8]) -> Result<Text, Memory>
    ensures { IfOk result (λ text. text ≡ tokens_text page.now) }
{
    let tokens = read_page(alloc, page)?;
    print_tokens(alloc, page, &tokens)
}

// The page that an input is, read to its end.
fn read_input<I: Source>(alloc: Global, input: &mut I) -> Result<Bytes, CommandStop>
    ensures page { ReadInputAnswers (I.left input.old) result }
    ensures end { OnOk result (IsAtEnd (I.left input.new)) }
    ensures later { I.faults input.old ≤ I.faults input.new }
    ensures read { IsErrOf result CommandStop.Read
        → Rose (I.faults input.old) (I.faults input.new) }
    ensures write { IsErrOf result CommandStop.Write → ⊥ }
{
    let page = match read_up_to(alloc, input, MAX_PAGE) {
        Ok(page) => page,
        Err(IoStop::Failed) => return Err(CommandStop::Read),
        Err(IoStop::Memory) => return Err(CommandStop::Memory),
    };
    let length = page.as_slice().len();
    if length > MAX_PAGE {
        return Err(CommandStop::Data(DataRefused::TooLong(length as u64)));
    }
    Ok(page)
}
