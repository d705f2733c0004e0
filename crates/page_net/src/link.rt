ghost use Rattle.std.specs.Prelude.{◌≡◌, ℕ, ◌<◌, List, length, Option, IfOk, OnOk, OnErr};
ghost use Rattle.std.specs.Io.{ReadsAtMost, WritesAtMost};
ghost use Rattle.std.specs.Io.KnownBytes.{ReadConsumes, WriteAppends, Appends};
ghost use Rattle.page_io.specs.Causes.{HasCause};
ghost use Rattle.page_io.specs.Whole.{AppendsPart};

use page_io::Failed;

/// Both ends of a connection: the bytes that come are read, and the answers are written.
pub trait Link {
    // The bytes that are left to read, where the link tells them.
    ghost left: { Self → Option (List ℕ) };

    // The bytes that were taken, where the link tells them.
    ghost taken: { Self → Option (List ℕ) };

    // How many calls failed.
    ghost faults: { Self → ℕ };

    /// Fills a prefix of `buf` with the next bytes and answers how many they are. 0 for a `buf` that is not empty is
    /// the end of the input. The error comes only where the count of faults rose in this call, and then nothing was
    /// read. What was taken stays.
    fn read(&mut self, buf: &mut [u8]) -> Result<usize, Failed>
        ensures bound { ReadsAtMost result buf.new }
        ensures bytes { ReadConsumes (left self.old) (left self.new) result buf.new }
        ensures kept { OnErr result (left self.new ≡ left self.old) }
        ensures taken { taken self.new ≡ taken self.old }
        ensures cause { HasCause (faults self.old) (faults self.new) result };

    /// Appends a prefix of `bytes` and answers its length, which is not 0 unless there are no bytes: a link that takes
    /// nothing has failed. The error comes only where the count of faults rose in this call, and then nothing was
    /// taken. What is left to read stays.
    fn write(&mut self, bytes: &[u8]) -> Result<usize, Failed>
        ensures bound { WritesAtMost result bytes.now }
        ensures progress { IfOk result (λ n. 0 < length bytes.now → 0 < n) }
        ensures bytes { WriteAppends (taken self.old) (taken self.new) result bytes.now }
        ensures kept { OnErr result (taken self.new ≡ taken self.old) }
        ensures left { left self.new ≡ left self.old }
        ensures cause { HasCause (faults self.old) (faults self.new) result };

    /// Says that the caller holds no part of a request, so that a link which does not tell its bytes may answer 0 to
    /// the next read and be served again later. Nothing changes that the link tells.
    fn rest(&mut self)
        ensures left { left self.new ≡ left self.old }
        ensures taken { taken self.new ≡ taken self.old }
        ensures faults { faults self.new ≡ faults self.old }
    {}
}

/// Writes all of the bytes. After the error a prefix of them was taken. What is left to read stays.
pub fn write_all<L: Link>(link: &mut L, bytes: &[u8]) -> Result<(), Failed>
    ensures all { OnOk result (Appends (L.taken link.old) (L.taken link.new) bytes.now) }
    ensures part { AppendsPart (L.taken link.old) (L.taken link.new) bytes.now }
    ensures left { L.left link.new ≡ L.left link.old }
    ensures cause { HasCause (L.faults link.old) (L.faults link.new) result }
{
    let mut done = 0;
    while done < bytes.len() {
        let (_, rest) = bytes.split_at(done);
        done += link.write(rest)?;
    }
    Ok(())
}
