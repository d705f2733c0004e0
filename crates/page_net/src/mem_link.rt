ghost use Rattle.std.specs.Prelude.{◌≡◌, ◌+◌, ◌-◌, ◌^◌, ◌↔◌, ◌<◌, ◌≤◌, ◌⊎◌, [], length, drop, min, IfOk, IsErr, OnErr, Contains, Some, vec_len, vec_capacity};
ghost use Rattle.std.specs.Io.{ReadsAtMost, WritesAtMost};
ghost use Rattle.std.specs.Io.KnownBytes.{ReadConsumes, WriteAppends};
ghost use Rattle.page_io.specs.Causes.{HasCause};

use crate::calls::CallCounter;
use crate::copying::copy_front;
use crate::link::Link;
use page_io::{Bytes, Failed, List, Memory};
use std::alloc::Global;

/// A link over memory: its bytes are given, and what is written goes into memory that is reserved at once. It moves
/// some bytes at a time, and fails at stated calls and where no room is left.
#[derive(Debug, Drop)]
pub struct MemLink {
    bytes: Bytes,
    at: usize,
    taken: Vec<u8>,
    room: usize,
    step: u64,
    calls: CallCounter,
    ghost in_bytes: { at ≤ length bytes },
    ghost reserved: { vec_len taken + room ≤ vec_capacity taken },
    ghost moves: { 0 < step },
}

impl MemLink {
    /// A link of these bytes with room for `room` bytes, which moves at most `step` bytes at a time. `fail` has the
    /// numbers of the calls that are to fail, reads and writes counted together from 1. Fails only if allocation fails.
    pub fn new(
        alloc: Global,
        bytes: Bytes,
        room: u64,
        step: u64,
        fail: List<u64>,
    ) -> Result<MemLink, Memory>
        requires { 0 < step }
        ensures left { IfOk result (λ link. ⟦<MemLink as Link>⟧.left link ≡ Some bytes) }
        ensures taken { IfOk result (λ link. ⟦<MemLink as Link>⟧.taken link ≡ Some []) }
        ensures faults { IfOk result (λ link. ⟦<MemLink as Link>⟧.faults link ≡ 0) }
        ensures room { IfOk result (λ link. link.room ≡ room) }
        ensures step { IfOk result (λ link. link.step ≡ step) }
        ensures calls { IfOk result (λ link.
            link.calls ≡ record { fail = fail; made = 0; faults = 0 }) }
    {
        let room = room as usize;
        let taken = Vec::with_capacity(alloc, room)?;
        Ok(MemLink {
            bytes,
            at: 0,
            taken,
            room,
            step,
            calls: CallCounter::new(fail),
        })
    }

    /// The bytes that were taken.
    pub fn taken(&self) -> &[u8]
        ensures { ⟦<MemLink as Link>⟧.taken self.now ≡ Some result.now }
    {
        self.taken.as_slice()
    }

    /// How many calls failed.
    pub fn faults(&self) -> u64
        ensures { ⟦<MemLink as Link>⟧.faults self.now ≡ result }
    {
        self.calls.faults()
    }
}

impl Link for MemLink {
    ghost use Rattle.std.specs.Prelude.{Some, drop};

    ghost left = { λ l. Some (drop l.at l.bytes) };

    ghost taken = { λ l. Some l.taken.items };

    ghost faults = { λ l. l.calls.faults };

    /// Fails exactly at the stated calls.
    fn read(&mut self, buf: &mut [u8]) -> Result<usize, Failed>
        ensures bound { ReadsAtMost result buf.new }
        ensures bytes { ReadConsumes (Some (drop self.old.at self.old.bytes))
            (Some (drop self.new.at self.new.bytes)) result buf.new }
        ensures kept { OnErr result (Some (drop self.new.at self.new.bytes)
            ≡ Some (drop self.old.at self.old.bytes)) }
        ensures taken { Some self.new.taken.items ≡ Some self.old.taken.items }
        ensures cause { HasCause self.old.calls.faults self.new.calls.faults result }
        ensures made { self.new.calls.made ≡ min (self.old.calls.made + 1) (2 ^ 64 - 1) }
        ensures fail { self.new.calls.fail ≡ self.old.calls.fail }
        ensures told { IsErr result ↔ Contains self.old.calls.fail self.new.calls.made }
        ensures room { self.new.room ≡ self.old.room }
        ensures step { self.new.step ≡ self.old.step }
        ensures count { IfOk result (λ n. n
            ≡ min (min (length self.old.bytes - self.old.at) (length buf.new)) self.old.step) }
    {
        self.calls.begin()?;
        let (_, rest) = self.bytes.as_slice().split_at(self.at);
        let count = copy_front(rest, buf, self.step);
        self.at += count;
        Ok(count)
    }

    /// Fails exactly at the stated calls, and where there are bytes and no room.
    fn write(&mut self, bytes: &[u8]) -> Result<usize, Failed>
        ensures bound { WritesAtMost result bytes.now }
        ensures progress { IfOk result (λ n. 0 < length bytes.now → 0 < n) }
        ensures bytes { WriteAppends (Some self.old.taken.items) (Some self.new.taken.items)
            result bytes.now }
        ensures kept { OnErr result (Some self.new.taken.items ≡ Some self.old.taken.items) }
        ensures left { Some (drop self.new.at self.new.bytes)
            ≡ Some (drop self.old.at self.old.bytes) }
        ensures cause { HasCause self.old.calls.faults self.new.calls.faults result }
        ensures made { self.new.calls.made ≡ min (self.old.calls.made + 1) (2 ^ 64 - 1) }
        ensures fail { self.new.calls.fail ≡ self.old.calls.fail }
        ensures told { OnErr result (Contains self.old.calls.fail self.new.calls.made
            ⊎ ((self.old.room ≡ 0) × (0 < length bytes.now))) }
        ensures fine { IfOk result (λ n. Contains self.old.calls.fail self.new.calls.made → ⊥) }
        ensures count { IfOk result (λ n.
            n ≡ min (min (length bytes.now) self.old.room) self.old.step) }
        ensures room { IfOk result (λ n. self.new.room ≡ self.old.room - n) }
        ensures same { OnErr result (self.new.room ≡ self.old.room) }
        ensures step { self.new.step ≡ self.old.step }
    {
        self.calls.begin()?;
        let count = bytes.len().min(self.room).min(self.step as usize);
        if count == 0 && !bytes.is_empty() {
            return Err(self.calls.fault());
        }
        let (prefix, _) = bytes.split_at(count);
        match self.taken.extend_from_slice(prefix) {
            Ok(()) => {
                self.room -= count;
                Ok(count)
            }
            Err(_) => Err(self.calls.fault()),
        }
    }
}
