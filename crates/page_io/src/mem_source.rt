ghost use Rattle.std.specs.Prelude.{◌≡◌, ◌+◌, ◌-◌, ◌^◌, ◌↔◌, ◌<◌, ◌≤◌, [], length, take, drop, min, IfOk, IsErr, OnErr, Contains, Some};
ghost use Rattle.std.specs.Io.{ReadsAtMost};
ghost use Rattle.std.specs.Io.KnownBytes.{ReadConsumes};
ghost use Rattle.page_io.specs.Causes.{HasCause};

use crate::bytes::Bytes;
use crate::calls::Calls;
use crate::list::List;
use crate::source::Source;
use crate::stop::Failed;

/// A source over bytes in memory, which gives some at a time and fails at stated calls.
#[derive(Debug, Drop)]
pub struct MemSource {
    bytes: Bytes,
    at: usize,
    step: u64,
    calls: Calls,
    ghost in_bytes: { at ≤ length bytes },
    ghost moves: { 0 < step },
}

impl MemSource {
    /// A source of these bytes that gives at most `step` at a time. `fail` has the numbers of the calls that are to
    /// fail, counted from 1.
    pub fn new(bytes: Bytes, step: u64, fail: List<u64>) -> MemSource
        requires { 0 < step }
        ensures left { ⟦<MemSource as Source>⟧.left result ≡ Some bytes }
        ensures faults { ⟦<MemSource as Source>⟧.faults result ≡ 0 }
        ensures step { result.step ≡ step }
        ensures calls { result.calls ≡ record { fail = fail; made = 0; faults = 0 } }
    {
        MemSource {
            bytes,
            at: 0,
            step,
            calls: Calls::new(fail),
        }
    }
}

impl Source for MemSource {
    ghost use Rattle.std.specs.Prelude.{Some, drop};

    ghost left = { λ s. Some (drop s.at s.bytes) };

    ghost faults = { λ s. s.calls.faults };

    /// Fails exactly at the stated calls.
    fn read(&mut self, buf: &mut [u8]) -> Result<usize, Failed>
        ensures bound { ReadsAtMost result buf.new }
        ensures bytes { ReadConsumes (Some (drop self.old.at self.old.bytes))
            (Some (drop self.new.at self.new.bytes)) result buf.new }
        ensures kept { OnErr result (Some (drop self.new.at self.new.bytes)
            ≡ Some (drop self.old.at self.old.bytes)) }
        ensures cause { HasCause self.old.calls.faults self.new.calls.faults result }
        ensures made { self.new.calls.made ≡ min (self.old.calls.made + 1) (2 ^ 64 - 1) }
        ensures fail { self.new.calls.fail ≡ self.old.calls.fail }
        ensures told { IsErr result ↔ Contains self.old.calls.fail self.new.calls.made }
        ensures step { self.new.step ≡ self.old.step }
        ensures count { IfOk result (λ n. n
            ≡ min (min (length self.old.bytes - self.old.at) (length buf.new)) self.old.step) }
    {
        self.calls.begin()?;
        let (_, rest) = self.bytes.as_slice().split_at(self.at);
        let count = copy_prefix(rest, buf, self.step);
        self.at += count;
        Ok(count)
    }
}

/// Copies a prefix of the bytes that are left, at most `step`, and says how many they are.
pub(crate) fn copy_prefix(rest: &[u8], buf: &mut [u8], step: u64) -> usize
    requires { 0 < step }
    ensures count { result ≡ min (min (length rest.now) (length buf.new)) step }
    ensures within { result ≤ length rest.now }
    ensures bound { result ≤ length buf.new }
    ensures bytes { take result buf.new ≡ take result rest.now }
    ensures end { result ≡ 0 → 0 < length buf.new → rest.now ≡ [] }
{
    let count = rest.len().min(buf.len()).min(step as usize);
    buf[..count].copy_from_slice(&rest[..count]);
    count
}
