ghost use Rattle.std.specs.Prelude.{◌≡◌, ◌<◌, ◌≤◌, length, Some};

use crate::copying::copy_front;
use crate::link::Link;
use page_io::{Bytes, Failed};

/// A link over memory that moves some bytes at a time and never fails. It keeps nothing of what is written, and tells
/// nothing of it.
#[derive(Debug, Drop)]
pub struct SureLink {
    bytes: Bytes,
    at: usize,
    step: u64,
    ghost in_bytes: { at ≤ length bytes },
    ghost moves: { 0 < step },
}

impl SureLink {
    /// A link of these bytes that moves at most `step` at a time.
    pub fn new(bytes: Bytes, step: u64) -> SureLink
        requires { 0 < step }
        ensures left { ⟦<SureLink as Link>⟧.left result ≡ Some bytes }
        ensures faults { ⟦<SureLink as Link>⟧.faults result ≡ 0 }
        ensures step { result.step ≡ step }
    {
        SureLink { bytes, at: 0, step }
    }
}

impl Link for SureLink {
    ghost use Rattle.std.specs.Prelude.{Some, None, drop};

    ghost left = { λ l. Some (drop l.at l.bytes) };

    ghost taken = { λ _. None };

    ghost faults = { λ _. 0 };

    fn read(&mut self, buf: &mut [u8]) -> Result<usize, Failed> {
        let (_, rest) = self.bytes.as_slice().split_at(self.at);
        let count = copy_front(rest, buf, self.step);
        self.at += count;
        Ok(count)
    }

    fn write(&mut self, bytes: &[u8]) -> Result<usize, Failed> {
        Ok(bytes.len().min(self.step as usize))
    }
}
