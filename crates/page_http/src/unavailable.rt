ghost use Rattle.std.specs.Prelude.{◌≡◌, ◌++◌, ◌+◌, ◌≤◌, length, true};
ghost use Rattle.page_http.specs.Replies.{reply_text};
ghost use Rattle.page_http.specs.Replies as spec;

use arrayvec::ArrayVec;
use itoa::Buffer;
use std::marker::Model;

// More than the bytes of the reply.
const ROOM: usize = 256;

// What stands before the number of the set, and behind it.
const BEFORE_NUMBER: &[u8] = b"HTTP/1.1 503 Service Unavailable\r\n\
    Content-Type: text/plain; charset=utf-8\r\nContent-Length: 7\r\nSet-Number: ";

const AFTER_NUMBER: &[u8] = b"\r\nConnection: close\r\n\r\nmemory\n";

/// The bytes of the reply 503, where memory has run out. They take none: they stand in the value
/// itself. Contracts see their list.
#[derive(Drop)]
pub struct Unavailable {
    bytes: ArrayVec<u8, ROOM>,
}

impl Model for Unavailable {
    ghost use Rattle.std.specs.Prelude.{List, ℕ};

    ghost Value = { List ℕ };

    ghost view = { λ u. u.bytes.items };
}

impl Unavailable {
    /// The reply with the number of a set (RFC 9110, section 15.6.4), after which the connection
    /// ends.
    pub fn new(number: u64) -> Unavailable
        ensures { result ≡ reply_text (spec.unavailable number) true }
    {
        let mut digits = Buffer::new();
        let mut bytes = ArrayVec::new();
        push(&mut bytes, BEFORE_NUMBER);
        push(&mut bytes, digits.format(number).as_bytes());
        push(&mut bytes, AFTER_NUMBER);
        Unavailable { bytes }
    }

    /// The bytes as a slice.
    pub fn as_slice(&self) -> &[u8]
        ensures { result.now ≡ self.now }
    {
        self.bytes.as_slice()
    }
}

// Appends bytes for which there is room.
fn push(out: &mut ArrayVec<u8, ROOM>, more: &[u8])
    requires { length out.old.items + length more.now ≤ 256 }
    ensures { out.new.items ≡ out.old.items ++ more.now }
{
    match out.try_extend_from_slice(more) {
        Ok(()) => {}
        Err(_) => unreachable!(),
    }
}
