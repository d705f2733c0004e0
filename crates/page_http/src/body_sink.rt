ghost use Rattle.std.specs.Prelude.{◌≡◌, ◌<◌, [], length, Some, IfOk, OnErr};
ghost use Rattle.std.specs.Io.{WritesAtMost};
ghost use Rattle.std.specs.Io.KnownBytes.{WriteAppends};
ghost use Rattle.page_io.specs.Causes.{HasCause};

use page_io::{Bytes, Failed, Sink};
use std::alloc::Global;

/// A sink into memory that grows, which fails where memory runs out alone.
#[derive(Drop)]
pub struct BodySink {
    taken: Vec<u8>,
    faults: u64,
}

impl BodySink {
    /// A sink that has taken nothing, and no memory.
    pub fn new(alloc: Global) -> BodySink
        ensures { ⟦<BodySink as Sink>⟧.taken result ≡ Some [] }
    {
        BodySink {
            taken: Vec::new(alloc),
            faults: 0,
        }
    }

    /// What was taken.
    pub fn into_bytes(self) -> Bytes
        ensures { ⟦<BodySink as Sink>⟧.taken self ≡ Some result }
    {
        Bytes::from(self.taken)
    }
}

impl Sink for BodySink {
    ghost use Rattle.std.specs.Prelude.{Some};

    ghost taken = { λ s. Some s.taken.items };

    ghost faults = { λ s. s.faults };

    fn write(&mut self, bytes: &[u8]) -> Result<usize, Failed>
        ensures bound { WritesAtMost result bytes.now }
        ensures progress { IfOk result (λ n. 0 < length bytes.now → 0 < n) }
        ensures bytes { WriteAppends (Some self.old.taken.items) (Some self.new.taken.items)
            result bytes.now }
        ensures kept { OnErr result (Some self.new.taken.items ≡ Some self.old.taken.items) }
        ensures cause { HasCause self.old.faults self.new.faults result }
    {
        match self.taken.extend_from_slice(bytes) {
            Ok(()) => Ok(bytes.len()),
            Err(_) => {
                self.faults = self.faults.saturating_add(1);
                Err(Failed)
            }
        }
    }
}
