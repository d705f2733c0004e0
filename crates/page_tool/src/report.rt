ghost use Rattle.std.specs.Prelude.{◌≡◌, ◌≤◌, ◌⊎◌, IfOk, IsOk};
ghost use Rattle.std.specs.Cow.{cow_str_bytes};
ghost use Rattle.std.specs.Io.KnownBytes.{Appends};
ghost use Rattle.page_io.specs.Causes.{Rose};
ghost use Rattle.page_tool.specs.Codes.{status_for};
ghost use Rattle.page_tool.specs.Lines.{Says, stop_text};

use crate::status::{Status, status_of};
use crate::stop::CommandStop;
use page_datum::{Shown, legible};
use page_io::{Memory, Sink, Text, write_all};
use std::alloc::Global;
use std::borrow::CowStr;

/// Writes a line for people. A sink that fails changes nothing else.
pub fn say<E: Sink>(err: &mut E, line: &str)
    ensures said { Rose (E.faults err.old) (E.faults err.new)
        ⊎ Appends (E.taken err.old) (E.taken err.new) line.now }
    ensures later { E.faults err.old ≤ E.faults err.new }
{
    let _ = write_all(err, line.as_bytes());
}

/// Writes the lines of a stop, and gives its status: or that of out of memory, where there was no
/// memory for the lines.
pub fn report<E: Sink>(alloc: Global, err: &mut E, stop: &CommandStop, name: &str) -> Status
    ensures said { Rose (E.faults err.old) (E.faults err.new)
        ⊎ Says stop.now name.now result (E.taken err.old) (E.taken err.new) }
    ensures status { (result ≡ status_for stop.now) ⊎ (result ≡ Status.Memory) }
    ensures write { stop.now ≡ CommandStop.Write → result ≡ Status.WriteFault }
    ensures later { E.faults err.old ≤ E.faults err.new }
{
    match lines_of(alloc, stop, name) {
        Ok(lines) => {
            say(err, lines.as_str());
            status_of(stop)
        }
        Err(Memory) => {
            say(err, "memory\n");
            Status::Memory
        }
    }
}

// The lines of a stop of a command with this name of a root. Those of a failed device are not
// allocated.
fn lines_of<'a>(alloc: Global, stop: &CommandStop, name: &str) -> Result<CowStr<'a>, Memory>
    ensures lines { IfOk result (λ lines. cow_str_bytes lines ≡ stop_text stop.now name.now) }
    ensures write { stop.now ≡ CommandStop.Write → IsOk result }
{
    match stop {
        CommandStop::Set(why) => {
            let mut lines = Text::new(alloc);
            match why.lines(&mut lines) {
                Ok(()) => Ok(CowStr::Owned(lines.into_string())),
                Err(memory) => Err(memory),
            }
        }
        CommandStop::Fault(fault) => {
            let template = legible(alloc, fault.template.as_str())?;
            let (kind, template, line) = (fault.kind, template.as_str(), fault.line);
            Ok(CowStr::Owned(format!(in alloc; "fault {kind} {template}:{line}\n")?))
        }
        CommandStop::Data(why) => Ok(CowStr::Owned(format!(in alloc; "data {why}\n")?)),
        CommandStop::Read => Ok(CowStr::Borrowed("read fault\n")),
        CommandStop::Write => Ok(CowStr::Borrowed("write fault\n")),
        CommandStop::NoTemplate => {
            let name = legible(alloc, name)?;
            let name = name.as_str();
            Ok(CowStr::Owned(format!(in alloc; "no template {name}\n")?))
        }
        CommandStop::Memory => Ok(CowStr::Borrowed("memory\n")),
    }
}
