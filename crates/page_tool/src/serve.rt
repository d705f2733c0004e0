ghost use Rattle.std.specs.Prelude.{◌≡◌, ◌≤◌, ◌⊎◌, ℕ, IfOk, IsErrOf, List, Option};
ghost use Rattle.std.specs.Io.KnownBytes.{Appends};
ghost use Rattle.page_io.specs.Causes.{Rose};
ghost use Rattle.page_tool.specs.Devices.{devices};
ghost use Rattle.page_tool.specs.ServeDevices.{serve_devices};
ghost use Rattle.page_tool.specs.ServeReading.{service_read};
ghost use Rattle.page_tool.specs.ServeStatuses.{BeginServeAnswers, serve_text, status_served};
ghost use Rattle.page_tool.specs.Serving.{RunsServe};

use crate::report::{report, say};
use crate::serve_words::Service;
use crate::set::load_set;
use crate::status::Status;
use crate::stop::CommandStop;
use page_io::{Folder, Memory, Sink, Text};
use page_net::{Door, Net};
use page_serve::ServeStop;
use page_set::PageSet;
use page_spawn::Spawner;
use set_publisher::Seats;
use std::alloc::Global;
use std::sync::Wait;

/// The command `serve DIR ADDR --workers N [--links K]`: serves the pages of the set of a directory,
/// and writes a line for each worker, or reports what stopped it. It may wait. It is given no input,
/// so its contract holds for every input.
pub fn serve<F: Folder + Send, O: Sink, E: Sink, N: Net, T: Spawner, S: Seats, R: Wait + Sync>(
    alloc: Global,
    rt: &R,
    service: Service<'_>,
    folder: F,
    out: &mut O,
    err: &mut E,
    net: &mut N,
    spawner: &mut T,
    seats: &mut S,
) -> (Status, F)
where
    N::Door: Send + Drop,
    <N::Door as Door>::Link: Send,
    ensures { (left : Option (List ℕ)) (faults : ℕ) → RunsServe N.Door.told N.Door.faults
        N.Door.Link.left N.Door.Link.taken N.Door.Link.faults (service_read service.entry)
        (devices (F.held folder) (F.faults folder) left faults
        (O.taken out.old) (O.faults out.old) (E.taken err.old) (E.faults err.old))
        (devices (F.held result.1) (F.faults result.1) left faults
        (O.taken out.new) (O.faults out.new) (E.taken err.new) (E.faults err.new))
        (serve_devices (N.told net.old) (N.faults net.old) (T.faults spawner.old)
        (S.faults seats.old))
        (serve_devices (N.told net.new) (N.faults net.new) (T.faults spawner.new)
        (S.faults seats.new)) result.0 }
{
    let mut folder = folder;
    let (first, dir) = match begin(alloc, &mut folder, service.dir) {
        Ok(begun) => begun,
        Err(stop) => return (report(alloc, err, &stop, ""), folder),
    };
    let (answer, folder) = page_serve::serve(
        alloc,
        rt,
        first,
        folder,
        dir,
        service.address,
        service.workers,
        service.links,
        out,
        net,
        spawner,
        seats,
    );
    (report_served(err, answer), folder)
}

// The first set, that of a directory, and the directory for the reloads.
fn begin<F: Folder>(
    alloc: Global,
    folder: &mut F,
    dir: &str,
) -> Result<(PageSet, Text), CommandStop>
    ensures set { BeginServeAnswers (F.held folder.old) dir.now result }
    ensures kept { F.held folder.new ≡ F.held folder.old }
    ensures later { F.faults folder.old ≤ F.faults folder.new }
    ensures read { IsErrOf result CommandStop.Read
        → Rose (F.faults folder.old) (F.faults folder.new) }
{
    let checked = match load_set(alloc, folder, dir) {
        Ok(checked) => checked,
        Err(stop) => return Err(stop),
    };
    let set = match PageSet::of(alloc, checked) {
        Ok(set) => set,
        Err(Memory) => return Err(CommandStop::Memory),
    };
    match Text::copy_of(alloc, dir) {
        Ok(dir) => Ok((set, dir)),
        Err(Memory) => Err(CommandStop::Memory),
    }
}

// Writes the line of an answer, where it has one, and gives its status.
fn report_served<E: Sink>(err: &mut E, answer: Result<(), ServeStop>) -> Status
    ensures status { result ≡ status_served answer }
    ensures said { Rose (E.faults err.old) (E.faults err.new)
        ⊎ Appends (E.taken err.old) (E.taken err.new) (serve_text answer) }
    ensures later { E.faults err.old ≤ E.faults err.new }
{
    let (status, line) = match answer {
        Ok(()) => return Status::Ok,
        Err(ServeStop::Net) => (Status::NetFault, "net fault\n"),
        Err(ServeStop::Spawn) => (Status::SpawnFault, "spawn fault\n"),
        Err(ServeStop::Seat) => (Status::SeatFault, "seat fault\n"),
        Err(ServeStop::Write) => (Status::WriteFault, "write fault\n"),
        Err(ServeStop::Memory) => (Status::Memory, "memory\n"),
    };
    say(err, line);
    status
}
