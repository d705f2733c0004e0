ghost use Rattle.std.specs.Prelude.{◌≡◌, ◌≤◌, ℕ, IsErrOf, List, Option};
ghost use Rattle.page_io.specs.Causes.{Rose};
ghost use Rattle.page_tool.specs.Devices.{devices};
ghost use Rattle.page_tool.specs.Explaining.{ExplainAnswers};
ghost use Rattle.page_tool.specs.Runs.{Runs};
ghost use Rattle.page_tool.specs.Words as command;

use crate::report::report;
use crate::set::{load_set, write_text};
use crate::status::Status;
use crate::stop::CommandStop;
use page_io::{Folder, Memory, Sink};
use std::alloc::Global;

/// The command `explain DIR NAME`: writes what there is to say of a root of the set of a directory,
/// its places and what is done to the values of its holes, or reports what stopped it. It is given
/// no input, so its contract holds for every input.
pub fn explain<F: Folder, O: Sink, E: Sink>(
    alloc: Global,
    folder: &mut F,
    out: &mut O,
    err: &mut E,
    dir: &str,
    root: &str,
) -> Status
    ensures { (left : Option (List ℕ)) (faults : ℕ) → Runs (command.explain dir.now root.now)
        (devices (F.held folder.old) (F.faults folder.old) left faults
        (O.taken out.old) (O.faults out.old) (E.taken err.old) (E.faults err.old))
        (devices (F.held folder.new) (F.faults folder.new) left faults
        (O.taken out.new) (O.faults out.new) (E.taken err.new) (E.faults err.new)) result }
{
    match write_explanation(alloc, folder, out, dir, root) {
        Ok(()) => Status::Ok,
        Err(stop) => report(alloc, err, &stop, root),
    }
}

// Writes the explanation of a root of a directory.
fn write_explanation<F: Folder, O: Sink>(
    alloc: Global,
    folder: &mut F,
    out: &mut O,
    dir: &str,
    root: &str,
) -> Result<(), CommandStop>
    ensures answers { ExplainAnswers (F.held folder.old) dir.now root.now
        (O.taken out.old) (O.taken out.new) result }
    ensures kept { F.held folder.new ≡ F.held folder.old }
    ensures folder_later { F.faults folder.old ≤ F.faults folder.new }
    ensures out_later { O.faults out.old ≤ O.faults out.new }
    ensures read { IsErrOf result CommandStop.Read
        → Rose (F.faults folder.old) (F.faults folder.new) }
    ensures write { IsErrOf result CommandStop.Write → Rose (O.faults out.old) (O.faults out.new) }
{
    let set = match load_set(alloc, folder, dir) {
        Ok(set) => set,
        Err(stop) => return Err(stop),
    };
    match set.explain(alloc, root) {
        Ok(Some(text)) => write_text(out, &text),
        Ok(None) => Err(CommandStop::NoTemplate),
        Err(Memory) => Err(CommandStop::Memory),
    }
}
