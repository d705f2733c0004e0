use page_io::{Failed, Sink};

/// A sink that counts the bytes that it is given. It keeps none of them, tells nothing of them, and never fails.
#[derive(Debug, Drop)]
pub struct ByteCounter {
    bytes: u64,
}

impl ByteCounter {
    /// A sink that was given nothing yet.
    pub fn new() -> ByteCounter {
        ByteCounter { bytes: 0 }
    }

    /// How many bytes it was given.
    pub fn bytes(&self) -> u64 {
        self.bytes
    }
}

impl Sink for ByteCounter {
    ghost use Rattle.std.specs.Prelude.{None};

    ghost taken = { λ _. None };

    ghost faults = { λ _. 0 };

    fn write(&mut self, bytes: &[u8]) -> Result<usize, Failed> {
        self.bytes = self.bytes.saturating_add(bytes.len() as u64);
        Ok(bytes.len())
    }
}
