ghost use Rattle.std.specs.Prelude.{◌≡◌, ◌≤◌, ℕ, true, IfOk, IsErrOf, List, Option};
ghost use Rattle.page_check.specs.Roots.{is_root};
ghost use Rattle.page_datum.specs.View.{view};
ghost use Rattle.page_io.specs.Causes.{Rose};
ghost use Rattle.page_io.specs.FolderContents.{FolderContents};
ghost use Rattle.page_set.specs.Executions.{IsExecution, execution_of};
ghost use Rattle.page_tool.specs.Devices.{devices};
ghost use Rattle.page_tool.specs.Making.{MadeSetAnswers, MadeTextAnswers, MakeAnswers, PageLengthAnswers, made_text};
ghost use Rattle.page_tool.specs.Runs.{Runs};
ghost use Rattle.page_tool.specs.Words as command;

use crate::nowhere::Nowhere;
use crate::report::report;
use crate::sections::{MADE_NAME, made_datum, made_files};
use crate::set::write_text;
use crate::status::Status;
use crate::stop::CommandStop;
use page_datum::{Datum, PageStop, Pages};
use page_io::{Memory, Sink, Text};
use page_set::{MakeRefused, PageSet};
use std::alloc::Global;

/// The command `make N`: makes the set of a template of so many sections and the page of its data,
/// and writes how many sections, places and bytes they have, or reports what stopped it. It is
/// given no folder and no input, so its contract holds for each of them.
pub fn make<O: Sink, E: Sink>(alloc: Global, out: &mut O, err: &mut E, sections: u32) -> Status
    ensures { (held : Option FolderContents) (folder_faults : ℕ)
        → (left : Option (List ℕ)) (input_faults : ℕ) → Runs (command.make sections)
        (devices held folder_faults left input_faults
        (O.taken out.old) (O.faults out.old) (E.taken err.old) (E.faults err.old))
        (devices held folder_faults left input_faults
        (O.taken out.new) (O.faults out.new) (E.taken err.new) (E.faults err.new)) result }
{
    match write_made(alloc, out, sections) {
        Ok(()) => Status::Ok,
        Err(stop) => report(alloc, err, &stop, ""),
    }
}

// Writes the line of so many sections.
fn write_made<O: Sink>(alloc: Global, out: &mut O, sections: u32) -> Result<(), CommandStop>
    ensures answers { MakeAnswers sections (O.taken out.old) (O.taken out.new) result }
    ensures later { O.faults out.old ≤ O.faults out.new }
    ensures write { IsErrOf result CommandStop.Write → Rose (O.faults out.old) (O.faults out.new) }
{
    match made_text(alloc, sections) {
        Ok(text) => write_text(out, &text),
        Err(stop) => Err(stop),
    }
}

// The line of so many sections.
fn made_text(alloc: Global, sections: u32) -> Result<Text, CommandStop>
    ensures { MadeTextAnswers sections result }
{
    let set = match made_set(alloc, sections) {
        Ok(set) => set,
        Err(stop) => return Err(stop),
    };
    let datum = match made_datum(alloc) {
        Ok(datum) => datum,
        Err(Memory) => return Err(CommandStop::Memory),
    };
    let bytes = match page_length(alloc, &set, MADE_NAME, &datum) {
        Ok(bytes) => bytes,
        Err(stop) => return Err(stop),
    };
    let (_, _, places) = set.counts();
    match line(alloc, sections, places, bytes) {
        Ok(text) => Ok(text),
        Err(Memory) => Err(CommandStop::Memory),
    }
}

// The line of these numbers.
fn line(alloc: Global, sections: u32, places: usize, bytes: u64) -> Result<Text, Memory>
    ensures { IfOk result (λ text. text ≡ made_text sections places bytes) }
{
    let line = format!(in alloc;
        "make {sections}: sections {sections} places {places} bytes {bytes}\n"
    )?;
    Ok(Text::from(line))
}

// The set of so many sections.
fn made_set(alloc: Global, sections: u32) -> Result<PageSet, CommandStop>
    ensures { MadeSetAnswers sections result }
{
    let files = match made_files(alloc, sections) {
        Ok(files) => files,
        Err(Memory) => return Err(CommandStop::Memory),
    };
    match PageSet::make(alloc, files) {
        Ok(set) => Ok(set),
        Err(MakeRefused::Memory) => Err(CommandStop::Memory),
        Err(why) => Err(CommandStop::Set(why)),
    }
}

// How many bytes the page of a root of a set has with a datum.
fn page_length(alloc: Global, set: &PageSet, root: &str, datum: &Datum) -> Result<u64, CommandStop>
    requires { is_root set.now.files.list root.now ≡ true }
    ensures length { PageLengthAnswers
        (execution_of set.now.files.list set.now.forest root.now (view datum.now)) result }
    ensures meant { IsExecution set.now.files root.now (view datum.now)
        (execution_of set.now.files.list set.now.forest root.now (view datum.now)) }
{
    match set.page(alloc, root, datum, &mut Nowhere) {
        Ok(end) => Ok(end.bytes),
        Err(PageStop::NoTemplate) => unreachable!(),
        Err(PageStop::Fault(fault)) => Err(CommandStop::Fault(fault)),
        Err(PageStop::SinkStop) => unreachable!(),
        Err(PageStop::Memory) => Err(CommandStop::Memory),
    }
}
