ghost use Rattle.std.specs.Prelude.{◌≡◌, ◌+◌, ◌-◌, ◌^◌, ◌<◌, ◌≤◌, ◌⊎◌, [], length, min, IfOk, OnErr, Contains, Some, vec_len, vec_capacity};
ghost use Rattle.std.specs.Io.{WritesAtMost};
ghost use Rattle.std.specs.Io.KnownBytes.{WriteAppends};
ghost use Rattle.page_io.specs.Causes.{HasCause};

use crate::calls::Calls;
use crate::list::List;
use crate::sink::Sink;
use crate::stop::{Failed, Memory};
use std::alloc::Global;

/// A sink into memory that is reserved at once, which takes some bytes at a time and fails at stated calls, and where
/// no room is left.
#[derive(Debug, Drop)]
pub struct MemSink {
    taken: Vec<u8>,
    room: usize,
    step: u64,
    calls: Calls,
    ghost reserved: { vec_len taken + room ≤ vec_capacity taken },
    ghost moves: { 0 < step },
}

impl MemSink {
    /// A sink with room for `room` bytes that takes at most `step` at a time. `fail` has the numbers of the calls that
    /// are to fail, counted from 1. Fails only if allocation fails.
    pub fn new(alloc: Global, room: u64, step: u64, fail: List<u64>) -> Result<MemSink, Memory>
        requires { 0 < step }
        ensures taken { IfOk result (λ sink. ⟦<MemSink as Sink>⟧.taken sink ≡ Some []) }
        ensures faults { IfOk result (λ sink. ⟦<MemSink as Sink>⟧.faults sink ≡ 0) }
        ensures room { IfOk result (λ sink. sink.room ≡ room) }
        ensures step { IfOk result (λ sink. sink.step ≡ step) }
        ensures calls { IfOk result (λ sink.
            sink.calls ≡ record { fail = fail; made = 0; faults = 0 }) }
    {
        let room = room as usize;
        let taken = Vec::with_capacity(alloc, room)?;
        Ok(MemSink {
            taken,
            room,
            step,
            calls: Calls::new(fail),
        })
    }

    /// The bytes that were taken.
    pub fn taken(&self) -> &[u8]
        ensures { ⟦<MemSink as Sink>⟧.taken self.now ≡ Some result.now }
    {
        self.taken.as_slice()
    }
}

impl Sink for MemSink {
    ghost use Rattle.std.specs.Prelude.{Some};

    ghost taken = { λ s. Some s.taken.items };

    ghost faults = { λ s. s.calls.faults };

    /// Fails exactly at the stated calls, and where there are bytes and no room.
    fn write(&mut self, bytes: &[u8]) -> Result<usize, Failed>
        ensures bound { WritesAtMost result bytes.now }
        ensures progress { IfOk result (λ n. 0 < length bytes.now → 0 < n) }
        ensures bytes { WriteAppends (Some self.old.taken.items) (Some self.new.taken.items)
            result bytes.now }
        ensures kept { OnErr result (Some self.new.taken.items ≡ Some self.old.taken.items) }
        ensures cause { HasCause self.old.calls.faults self.new.calls.faults result }
        ensures made { self.new.calls.made ≡ min (self.old.calls.made + 1) (2 ^ 64 - 1) }
        ensures fail { self.new.calls.fail ≡ self.old.calls.fail }
        ensures told { OnErr result (Contains self.old.calls.fail self.new.calls.made
            ⊎ ((self.old.room ≡ 0) × (0 < length bytes.now))) }
        ensures fine { IfOk result (λ n. Contains self.old.calls.fail self.new.calls.made → ⊥) }
        ensures count { IfOk result (λ n.
            n ≡ min (min (length bytes.now) self.old.room) self.old.step) }
        ensures room { IfOk result (λ n. self.new.room ≡ self.old.room - n) }
        ensures same { OnErr result (self.new.room ≡ self.old.room) }
        ensures step { self.new.step ≡ self.old.step }
    {
        self.calls.begin()?;
        let count = bytes.len().min(self.room).min(self.step as usize);
        if count == 0 && !bytes.is_empty() {
            return Err(self.calls.fault());
        }
        let (prefix, _) = bytes.split_at(count);
        match self.taken.extend_from_slice(prefix) {
            Ok(()) => {
                self.room -= count;
                Ok(count)
            }
            Err(_) => Err(self.calls.fault()),
        }
    }
}
