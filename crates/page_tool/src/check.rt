ghost use Rattle.std.specs.Prelude.{◌≡◌, ◌≤◌, ℕ, IfOk, IsErrOf, List, Option};
ghost use Rattle.page_io.specs.Causes.{Rose};
ghost use Rattle.page_tool.specs.Checking.{CheckAnswers};
ghost use Rattle.page_tool.specs.Checking as spec;
ghost use Rattle.page_tool.specs.Devices.{devices};
ghost use Rattle.page_tool.specs.Runs.{Runs};
ghost use Rattle.page_tool.specs.Words as command;

use crate::report::report;
use crate::set::{load_set, write_text};
use crate::status::Status;
use crate::stop::CommandStop;
use page_check::Checked;
use page_io::{Folder, Memory, Sink, Text};
use std::alloc::Global;

/// The command `check DIR`: writes how many roots, templates and places the set of a directory has,
/// or reports what stopped it. It is given no input, so its contract holds for every input.
pub fn check<F: Folder, O: Sink, E: Sink>(
    alloc: Global,
    folder: &mut F,
    out: &mut O,
    err: &mut E,
    dir: &str,
) -> Status
    ensures { (left : Option (List ℕ)) (faults : ℕ) → Runs (command.check dir.now)
        (devices (F.held folder.old) (F.faults folder.old) left faults
        (O.taken out.old) (O.faults out.old) (E.taken err.old) (E.faults err.old))
        (devices (F.held folder.new) (F.faults folder.new) left faults
        (O.taken out.new) (O.faults out.new) (E.taken err.new) (E.faults err.new)) result }
{
    match write_counts(alloc, folder, out, dir) {
        Ok(()) => Status::Ok,
        Err(stop) => report(alloc, err, &stop, ""),
    }
}

// Writes the line of the set of a directory.
fn write_counts<F: Folder, O: Sink>(
    alloc: Global,
    folder: &mut F,
    out: &mut O,
    dir: &str,
) -> Result<(), CommandStop>
    ensures answers { CheckAnswers (F.held folder.old) dir.now
        (O.taken out.old) (O.taken out.new) result }
    ensures kept { F.held folder.new ≡ F.held folder.old }
    ensures folder_later { F.faults folder.old ≤ F.faults folder.new }
    ensures out_later { O.faults out.old ≤ O.faults out.new }
    ensures read { IsErrOf result CommandStop.Read
        → Rose (F.faults folder.old) (F.faults folder.new) }
    ensures write { IsErrOf result CommandStop.Write → Rose (O.faults out.old) (O.faults out.new) }
{
    let set = match load_set(alloc, folder, dir) {
        Ok(set) => set,
        Err(stop) => return Err(stop),
    };
    let text = match set_text(alloc, &set) {
        Ok(text) => text,
        Err(Memory) => return Err(CommandStop::Memory),
    };
    write_text(out, &text)
}

// The line of a set.
fn set_text(alloc: Global, set: &Checked) -> Result<Text, Memory>
    ensures { IfOk result (λ text. text ≡ spec.checked_set_text set.now) }
{
    let (roots, templates, places) = set.counts();
    let line = format!(in alloc; "ok {roots} roots {templates} templates {places} places\n")?;
    Ok(Text::from(line))
}
