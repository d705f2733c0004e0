ghost use Rattle.std.specs.Prelude.{◌≡◌, ℕ, ◌+◌, ◌^◌, ◌<◌, ◌≤◌, ◌++◌, List, length, take, vec_len, Option, IfOk, OnErr};
ghost use Rattle.std.specs.Io.{ReadsAtMost};
ghost use Rattle.std.specs.Io.KnownBytes.{ReadConsumes, Consumes, IsAtEnd};
ghost use Rattle.page_io.specs.Causes.{HasCause, HasStop};
ghost use Rattle.page_io.specs.Whole.{ReadsUpTo};

use crate::bytes::Bytes;
use crate::stop::{Failed, IoStop};
use std::alloc::{AllocError, Global};

/// Where bytes are read from.
pub trait Source {
    // The bytes that are left, where the source tells them.
    ghost left: { Self → Option (List ℕ) };

    // How many calls failed.
    ghost faults: { Self → ℕ };

    /// Fills a prefix of `buf` with the next bytes and answers how many they are. 0 for a `buf` that is not empty is the
    /// end of the input. The error comes only where the count of faults rose in this call, and then nothing was read.
    fn read(&mut self, buf: &mut [u8]) -> Result<usize, Failed>
        ensures bound { ReadsAtMost result buf.new }
        ensures bytes { ReadConsumes (left self.old) (left self.new) result buf.new }
        ensures kept { OnErr result (left self.new ≡ left self.old) }
        ensures cause { HasCause (faults self.old) (faults self.new) result };
}

// How many bytes are asked for at once.
const CHUNK: usize = 65536;

/// Reads a source to its end, or `max + 1` bytes of it where it has more than `max`. After an error a prefix of the
/// source's bytes is read and lost.
pub fn read_up_to<S: Source>(alloc: Global, source: &mut S, max: usize) -> Result<Bytes, IoStop>
    requires { max < 2 ^ 63 }
    ensures read { IfOk result (ReadsUpTo max (S.left source.old) (S.left source.new)) }
    ensures cause { HasStop (S.faults source.old) (S.faults source.new) result }
{
    let mut bytes = Vec::new(alloc);
    let mut buffer = zeros(alloc, CHUNK)?;
    while bytes.len() <= max {
        let room = max + 1 - bytes.len();
        let count = match read_more(source, buffer.as_mut_slice(), room, &mut bytes) {
            Ok(count) => count,
            Err(stop) => return Err(stop),
        };
        if count == 0 {
            break;
        }
    }
    Ok(Bytes::from(bytes))
}

fn zeros(alloc: Global, len: usize) -> Result<Vec<u8>, AllocError>
    ensures { IfOk result (λ zeros. vec_len zeros ≡ len) }
{
    vec![in alloc; 0; len]
}

// Appends what one read gives, at most `room` bytes. 0 is the end of the source.
fn read_more<S: Source>(
    source: &mut S,
    buffer: &mut [u8],
    room: usize,
    bytes: &mut Vec<u8>,
) -> Result<usize, IoStop>
    requires room { 0 < room }
    requires buffer { 0 < length buffer.old }
    ensures bound { IfOk result (λ n. n ≤ room) }
    ensures within { IfOk result (λ n. n ≤ length buffer.new) }
    ensures appended { IfOk result (λ n. bytes.new.items ≡ bytes.old.items ++ take n buffer.new) }
    ensures len { IfOk result (λ n. vec_len bytes.new ≡ vec_len bytes.old + n) }
    ensures read { IfOk result (λ n.
        Consumes (S.left source.old) (S.left source.new) (take n buffer.new)) }
    ensures end { IfOk result (λ n. n ≡ 0 → IsAtEnd (S.left source.new)) }
    ensures cause { HasStop (S.faults source.old) (S.faults source.new) result }
{
    let asked = room.min(buffer.len());
    let count = source.read(&mut buffer[..asked])?;
    bytes.extend_from_slice(&buffer[..count])?;
    Ok(count)
}
