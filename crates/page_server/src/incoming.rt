ghost use Rattle.std.specs.Prelude.{◌≡◌, ◌<◌, ◌≤◌, [], length, OnOk, IfErr};
ghost use Rattle.std.specs.Prelude.{MatchOption, MatchResult};
ghost use Rattle.page_io.specs.Causes.{Rose};
ghost use Rattle.page_server.specs.Buffers.{IsReadBehind};
ghost use Rattle.page_server.specs.Held.{held_in};
ghost use Rattle.page_server.specs.Waiting.{IsIncoming, IsWaiting, StopsReading};
ghost use Rattle.page_server.specs.declared.end.LinkWhy.TheVariants as why;

use crate::buffer::Buffer;
use crate::end::LinkWhy;
use page_http::{ReadOne, Request, read_request};
use page_io::{IoStop, Memory};
use page_net::Link;
use std::alloc::Global;

/// What is to be answered next.
#[derive(Drop)]
pub(crate) enum Incoming {
    /// A request, which takes so many bytes.
    Request(Request, usize),
    /// Bytes that are refused with this status.
    Refused(u16),
    /// Bytes that were not read, since memory ran out.
    NoMemory,
}

/// Reads until there is something to answer. What came stays in the buffer. The error is why
/// reading stopped.
pub(crate) fn read_incoming<L: Link>(
    alloc: Global,
    link: &mut L,
    buffer: &mut Buffer,
) -> Result<Incoming, LinkWhy>
    ensures read { IsReadBehind (L.left link.old) (L.left link.new)
        (held_in buffer.old) (held_in buffer.new) }
    ensures incoming { MatchResult result (IsIncoming (held_in buffer.new))
        (StopsReading (L.left link.new) (held_in buffer.new)) }
    ensures taken { L.taken link.new ≡ L.taken link.old }
    ensures later { L.faults link.old ≤ L.faults link.new }
    ensures cause { IfErr result (λ w. w ≡ why.LinkFault
        → Rose (L.faults link.old) (L.faults link.new)) }
{
    loop {
        match front_of(alloc, buffer.as_slice()) {
            Some(incoming) => return Ok(incoming),
            None => {}
        }
        match read_on(link, buffer) {
            Ok(()) => {}
            Err(why) => return Err(why),
        }
    }
}

// What is to be answered before more is read, if anything.
fn front_of(alloc: Global, bytes: &[u8]) -> Option<Incoming>
    ensures { MatchOption result (IsWaiting bytes.now) (IsIncoming bytes.now) }
{
    if bytes.is_empty() {
        return None;
    }
    match read_request(alloc, bytes) {
        Ok(ReadOne::Whole(request, used)) => Some(Incoming::Request(request, used)),
        Ok(ReadOne::More) => None,
        Ok(ReadOne::Refused(status)) => Some(Incoming::Refused(status)),
        Err(Memory) => Some(Incoming::NoMemory),
    }
}

// Reads once, where there is nothing to answer yet. The error is why nothing came.
fn read_on<L: Link>(link: &mut L, buffer: &mut Buffer) -> Result<(), LinkWhy>
    requires { IsWaiting (held_in buffer.old) }
    ensures read { IsReadBehind (L.left link.old) (L.left link.new)
        (held_in buffer.old) (held_in buffer.new) }
    ensures more { OnOk result (length (held_in buffer.old) < length (held_in buffer.new)) }
    ensures stops { IfErr result (StopsReading (L.left link.new) (held_in buffer.new)) }
    ensures taken { L.taken link.new ≡ L.taken link.old }
    ensures later { L.faults link.old ≤ L.faults link.new }
    ensures cause { IfErr result (λ w. w ≡ why.LinkFault
        → Rose (L.faults link.old) (L.faults link.new)) }
{
    if buffer.is_empty() {
        link.rest();
        return read_between(link, buffer);
    }
    match buffer.fill(link) {
        Ok(0) => Err(LinkWhy::CutRequest),
        Ok(_) => Ok(()),
        Err(IoStop::Failed) => Err(LinkWhy::LinkFault),
        Err(IoStop::Memory) => Err(LinkWhy::Memory),
    }
}

// Reads once between requests, where nothing is held.
fn read_between<L: Link>(link: &mut L, buffer: &mut Buffer) -> Result<(), LinkWhy>
    requires { held_in buffer.old ≡ [] }
    ensures read { IsReadBehind (L.left link.old) (L.left link.new)
        (held_in buffer.old) (held_in buffer.new) }
    ensures more { OnOk result (length (held_in buffer.old) < length (held_in buffer.new)) }
    ensures stops { IfErr result (StopsReading (L.left link.new) (held_in buffer.new)) }
    ensures taken { L.taken link.new ≡ L.taken link.old }
    ensures later { L.faults link.old ≤ L.faults link.new }
    ensures cause { IfErr result (λ w. w ≡ why.LinkFault
        → Rose (L.faults link.old) (L.faults link.new)) }
{
    match buffer.fill(link) {
        Ok(0) => Err(LinkWhy::Closed),
        Ok(_) => Ok(()),
        Err(IoStop::Failed) => Err(LinkWhy::LinkFault),
        Err(IoStop::Memory) => Err(LinkWhy::Memory),
    }
}
