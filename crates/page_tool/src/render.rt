ghost use Rattle.std.specs.Prelude.{◌≡◌, ◌≤◌, ◌⊎◌, true, IfSome, OnOk, IsErrOf};
ghost use Rattle.std.specs.Io.KnownBytes.{IsAtEnd};
ghost use Rattle.page_io.specs.Causes.{Rose};
ghost use Rattle.page_check.specs.Roots.{is_root};
ghost use Rattle.page_datum.specs.View.{view};
ghost use Rattle.page_set.specs.Executions.{IsExecution, IsSoundPageOfFiles, execution_of};
ghost use Rattle.page_tool.specs.Devices.{IsUnread, devices};
ghost use Rattle.page_tool.specs.LoadedSets.{IsSetWith};
ghost use Rattle.page_tool.specs.Output.{RenderOutput, RenderCause, WritePageAnswers, WritesSound};
ghost use Rattle.page_tool.specs.Runs.{Runs};
ghost use Rattle.page_tool.specs.Words as command;

use crate::input::read_data;
use crate::report::report;
use crate::set::load_set;
use crate::status::Status;
use crate::stop::CommandStop;
use page_datum::{Datum, PageStop, Pages};
use page_io::{Folder, Memory, Sink, Source};
use page_set::PageSet;
use std::alloc::Global;

/// The command `render DIR NAME`: writes the page of a root of a directory with the datum that the
/// input is, or reports what stopped it.
pub fn render<F: Folder, I: Source, O: Sink, E: Sink>(
    alloc: Global,
    folder: &mut F,
    input: &mut I,
    out: &mut O,
    err: &mut E,
    dir: &str,
    root: &str,
) -> Status
    ensures sound { result ≡ Status.Ok
        → WritesSound (F.held folder.old) (I.left input.old) dir.now root.now
        (O.taken out.old) (O.taken out.new) }
    ensures runs { Runs (command.render dir.now root.now)
        (devices (F.held folder.old) (F.faults folder.old) (I.left input.old) (I.faults input.old)
        (O.taken out.old) (O.faults out.old) (E.taken err.old) (E.faults err.old))
        (devices (F.held folder.new) (F.faults folder.new) (I.left input.new) (I.faults input.new)
        (O.taken out.new) (O.faults out.new) (E.taken err.new) (E.faults err.new)) result }
{
    match render_page(alloc, folder, input, out, dir, root) {
        Ok(()) => Status::Ok,
        Err(stop) => report(alloc, err, &stop, root),
    }
}

// Writes the page of a root of a directory with the datum that the input is.
fn render_page<F: Folder, I: Source, O: Sink>(
    alloc: Global,
    folder: &mut F,
    input: &mut I,
    out: &mut O,
    dir: &str,
    root: &str,
) -> Result<(), CommandStop>
    ensures output { RenderOutput (F.held folder.old) (I.left input.old) dir.now root.now
        (O.taken out.old) (O.taken out.new) result }
    ensures sound { OnOk result (WritesSound (F.held folder.old) (I.left input.old) dir.now root.now
        (O.taken out.old) (O.taken out.new)) }
    ensures cause { RenderCause (F.held folder.old) (I.left input.old) dir.now root.now result }
    ensures end { OnOk result (IsAtEnd (I.left input.new)) }
    ensures in_order { IsUnread (I.left input.old) (I.faults input.old)
        (I.left input.new) (I.faults input.new)
        ⊎ IfSome (F.held folder.old) (λ h. IsSetWith h dir.now root.now) }
    ensures kept { F.held folder.new ≡ F.held folder.old }
    ensures folder_later { F.faults folder.old ≤ F.faults folder.new }
    ensures input_later { I.faults input.old ≤ I.faults input.new }
    ensures out_later { O.faults out.old ≤ O.faults out.new }
    ensures read { IsErrOf result CommandStop.Read
        → Rose (F.faults folder.old) (F.faults folder.new)
        ⊎ (Rose (I.faults input.old) (I.faults input.new)
        × IfSome (F.held folder.old) (λ h. IsSetWith h dir.now root.now)) }
    ensures write { IsErrOf result CommandStop.Write → Rose (O.faults out.old) (O.faults out.new) }
{
    let checked = match load_set(alloc, folder, dir) {
        Ok(checked) => checked,
        Err(stop) => return Err(stop),
    };
    let set = match PageSet::of(alloc, checked) {
        Ok(set) => set,
        Err(Memory) => return Err(CommandStop::Memory),
    };
    if !set.is_root(root) {
        return Err(CommandStop::NoTemplate);
    }
    let datum = match read_data(alloc, input) {
        Ok(datum) => datum,
        Err(stop) => return Err(stop),
    };
    write_page(alloc, &set, root, &datum, out)
}

// Writes the page of a root of a set with a datum. Nothing is written where it has none.
fn write_page<O: Sink>(
    alloc: Global,
    set: &PageSet,
    root: &str,
    datum: &Datum,
    out: &mut O,
) -> Result<(), CommandStop>
    requires { is_root set.now.files.list root.now ≡ true }
    ensures page { WritePageAnswers
        (execution_of set.now.files.list set.now.forest root.now (view datum.now))
        (O.taken out.old) (O.taken out.new) result }
    ensures meant { IsExecution set.now.files root.now (view datum.now)
        (execution_of set.now.files.list set.now.forest root.now (view datum.now)) }
    ensures sound { OnOk result (IsSoundPageOfFiles set.now.files root.now (view datum.now)
        (execution_of set.now.files.list set.now.forest root.now (view datum.now)).bytes) }
    ensures later { O.faults out.old ≤ O.faults out.new }
    ensures write { IsErrOf result CommandStop.Write → Rose (O.faults out.old) (O.faults out.new) }
{
    match set.page(alloc, root, datum, out) {
        Ok(_) => Ok(()),
        Err(PageStop::NoTemplate) => unreachable!(),
        Err(PageStop::Fault(fault)) => Err(CommandStop::Fault(fault)),
        Err(PageStop::SinkStop) => Err(CommandStop::Write),
        Err(PageStop::Memory) => Err(CommandStop::Memory),
    }
}
