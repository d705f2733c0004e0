// The net of a row.
ghost use Rattle.std.specs.Prelude.{IfOk};
ghost use Rattle.page_net.specs.Doors.{IsFreshDoor};

use crate::settings::{doors_of, fails_of};
use case_table::{CaseOutput, CaseStop, list_of, text_of};
use page_datum::Datum;
use page_io::{Bytes, List};
use page_net::{Door, MemDoor, MemLink, MemNet};
use std::alloc::Global;

// How many bytes a link has room for, and how many it gives or takes at a time.
const ROOM: u64 = 10_000;

const STEP: u64 = 100;

/// The net of a row's settings, over memory.
pub fn net_of(alloc: Global, settings: &[Datum]) -> Result<MemNet<MemLink>, CaseStop> {
    let mut doors = List::new(alloc);
    for door in doors_of(settings)? {
        doors.push(door_of(alloc, list_of(door)?, settings)?)?;
    }
    let fails = fails_of(alloc, settings, "net fails")?;
    Ok(MemNet::new(alloc, doors, fails)?)
}

/// Writes what the links got that are back, those of one door after those of another.
pub fn put_links(out: &mut CaseOutput, net: &MemNet<MemLink>) {
    for door in net.back() {
        out.put("\ndoor");
        for link in door.back() {
            out.put("\nlink: ");
            out.put(std::str::from_utf8(link.taken()).unwrap_or("not UTF-8"));
        }
    }
}

// A door of what its links give.
fn door_of(alloc: Global, links: &[Datum], settings: &[Datum]) -> Result<MemDoor<MemLink>, CaseStop>
    ensures { IfOk result (λ d. IsFreshDoor (⟦<MemDoor<MemLink> as Door>⟧.faults d)
        (⟦<MemDoor<MemLink> as Door>⟧.told d)) }
{
    let mut all = List::new(alloc);
    for link in links {
        let bytes = Bytes::copy_of(alloc, text_of(link)?.as_bytes())?;
        let fails = fails_of(alloc, settings, "link fails")?;
        all.push(MemLink::new(alloc, bytes, ROOM, STEP, fails)?)?;
    }
    Ok(MemDoor::new(alloc, all, fails_of(alloc, settings, "door fails")?)?)
}
