ghost use Rattle.std.specs.Prelude.{◌≡◌, ◌+◌, ◌-◌, ◌<◌, ◌≤◌, ◌↔◌, [], length, take, drop};
ghost use Rattle.std.specs.Prelude.{slice_range, IsTrue, IfOk, OnOk, OnErr};
ghost use Rattle.std.specs.Io.KnownBytes.{Consumes, IsAtEnd};
ghost use Rattle.page_io.specs.Causes.{HasCause, HasStop};
ghost use Rattle.page_server.specs.Buffers.{IsReadBehind};

use page_io::{Failed, IoStop};
use page_net::Link;
use std::alloc::{AllocError, Global};

// How many bytes are asked for at first.
const FIRST_ROOM: usize = 16_384;

/// The bytes that were read from a link and are not answered yet, in one piece of memory that is
/// kept from one request to the next, and from one link to the next. They are those from `start` to
/// `end`: `held_in` of `specs/Held.antt`.
#[derive(Drop)]
pub(crate) struct Buffer {
    room: Vec<u8>,
    start: usize,
    end: usize,
    ghost order: { start ≤ end },
    ghost within: { end ≤ length room.items },
}

impl Buffer {
    /// A buffer without bytes, which takes no memory before it is filled.
    pub(crate) fn new(alloc: Global) -> Buffer
        ensures { slice_range result.room.items result.start result.end ≡ [] }
    {
        Buffer {
            room: Vec::new(alloc),
            start: 0,
            end: 0,
        }
    }

    /// The bytes.
    pub(crate) fn as_slice(&self) -> &[u8]
        ensures { result.now ≡ slice_range self.now.room.items self.now.start self.now.end }
    {
        &self.room.as_slice()[self.start..self.end]
    }

    /// How many bytes there are.
    pub(crate) fn len(&self) -> usize
        ensures { result ≡ length (slice_range self.now.room.items self.now.start self.now.end) }
    {
        self.as_slice().len()
    }

    /// Whether there are none.
    pub(crate) fn is_empty(&self) -> bool
        ensures { IsTrue result
            ↔ (slice_range self.now.room.items self.now.start self.now.end ≡ []) }
    {
        self.as_slice().is_empty()
    }

    /// Lets go of all bytes, and keeps the memory.
    pub(crate) fn clear(&mut self)
        ensures { slice_range self.new.room.items self.new.start self.new.end ≡ [] }
    {
        self.start = 0;
        self.end = 0;
    }

    /// Lets go of the first bytes.
    pub(crate) fn consume(&mut self, used: usize)
        requires { used ≤ length (slice_range self.old.room.items self.old.start self.old.end) }
        ensures { slice_range self.new.room.items self.new.start self.new.end
            ≡ drop used (slice_range self.old.room.items self.old.start self.old.end) }
    {
        self.start += used;
        if self.start == self.end {
            self.start = 0;
            self.end = 0;
        }
    }

    /// Reads once, and answers how many bytes came; they stand behind those that were there. 0 is
    /// the end of the link's bytes. After an error nothing was read.
    pub(crate) fn fill<L: Link>(&mut self, link: &mut L) -> Result<usize, IoStop>
        ensures read { IsReadBehind (L.left link.old) (L.left link.new)
            (slice_range self.old.room.items self.old.start self.old.end)
            (slice_range self.new.room.items self.new.start self.new.end) }
        ensures count { IfOk result (λ n.
            length (slice_range self.new.room.items self.new.start self.new.end)
            ≡ length (slice_range self.old.room.items self.old.start self.old.end) + n) }
        ensures end { IfOk result (λ n. n ≡ 0 → IsAtEnd (L.left link.new)) }
        ensures kept { OnErr result
            (slice_range self.new.room.items self.new.start self.new.end
            ≡ slice_range self.old.room.items self.old.start self.old.end) }
        ensures taken { L.taken link.new ≡ L.taken link.old }
        ensures cause { HasStop (L.faults link.old) (L.faults link.new) result }
    {
        match self.make_room() {
            Ok(()) => self.read_more(link),
            Err(_) => Err(IoStop::Memory),
        }
    }

    // Makes room behind the bytes.
    fn make_room(&mut self) -> Result<(), AllocError>
        ensures kept { slice_range self.new.room.items self.new.start self.new.end
            ≡ slice_range self.old.room.items self.old.start self.old.end }
        ensures room { OnOk result (self.new.end < length self.new.room.items) }
    {
        if self.end < self.room.len() {
            return Ok(());
        }
        self.move_to_front();
        grow(&mut self.room, self.end)
    }

    // Moves the bytes to the front of the room.
    fn move_to_front(&mut self)
        ensures { slice_range self.new.room.items self.new.start self.new.end
            ≡ slice_range self.old.room.items self.old.start self.old.end }
    {
        move_front(self.room.as_mut_slice(), self.start, self.end);
        self.end -= self.start;
        self.start = 0;
    }

    // Reads once into the room behind the bytes.
    fn read_more<L: Link>(&mut self, link: &mut L) -> Result<usize, IoStop>
        requires { self.old.end < length self.old.room.items }
        ensures read { IsReadBehind (L.left link.old) (L.left link.new)
            (slice_range self.old.room.items self.old.start self.old.end)
            (slice_range self.new.room.items self.new.start self.new.end) }
        ensures count { IfOk result (λ n.
            length (slice_range self.new.room.items self.new.start self.new.end)
            ≡ length (slice_range self.old.room.items self.old.start self.old.end) + n) }
        ensures end { IfOk result (λ n. n ≡ 0 → IsAtEnd (L.left link.new)) }
        ensures kept { OnErr result
            (slice_range self.new.room.items self.new.start self.new.end
            ≡ slice_range self.old.room.items self.old.start self.old.end) }
        ensures taken { L.taken link.new ≡ L.taken link.old }
        ensures cause { HasStop (L.faults link.old) (L.faults link.new) result }
    {
        match read_behind(self.room.as_mut_slice(), self.end, link) {
            Ok(count) => {
                self.end += count;
                Ok(count)
            }
            Err(Failed) => Err(IoStop::Failed),
        }
    }
}

// Moves the bytes from `start` to `end` to the front.
fn move_front(room: &mut [u8], start: usize, end: usize)
    requires start { start ≤ end }
    requires end { end ≤ length room.old }
    ensures kept { take (end - start) room.new ≡ slice_range room.old start end }
    ensures len { length room.new ≡ length room.old }
{
    room.copy_within(start..end, 0);
}

// Makes the room greater where half of it or less is free behind the first `end` bytes.
fn grow(room: &mut Vec<u8>, end: usize) -> Result<(), AllocError>
    requires { end ≤ length room.old.items }
    ensures kept { take end room.new.items ≡ take end room.old.items }
    ensures room { OnOk result (end < length room.new.items) }
{
    if end < room.len() / 2 {
        return Ok(());
    }
    match room.resize(room.len().saturating_add(room.len().max(FIRST_ROOM)), 0) {
        Ok(()) => Ok(()),
        Err(error) => Err(error),
    }
}

// Reads once into what is behind the first `end` bytes.
fn read_behind<L: Link>(room: &mut [u8], end: usize, link: &mut L) -> Result<usize, Failed>
    requires { end < length room.old }
    ensures kept { take end room.new ≡ take end room.old }
    ensures within { IfOk result (λ n. end + n ≤ length room.new) }
    ensures read { IfOk result (λ n.
        Consumes (L.left link.old) (L.left link.new) (take n (drop end room.new))) }
    ensures stays { OnErr result (L.left link.new ≡ L.left link.old) }
    ensures end { IfOk result (λ n. n ≡ 0 → IsAtEnd (L.left link.new)) }
    ensures taken { L.taken link.new ≡ L.taken link.old }
    ensures cause { HasCause (L.faults link.old) (L.faults link.new) result }
{
    link.read(&mut room[end..])
}
