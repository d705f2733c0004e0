ghost use Rattle.std.specs.Prelude.{◌≤◌, IfOk, length, string_bytes};

use crate::units::{push_units, push_within};
use page_http::{ReadOne, Reply, number_reply, read_request, reply_bytes};
use page_io::Memory;
use std::alloc::{AllocError, Global};

// A request of 8 fields.
const HEAD: &str = "GET /set HTTP/1.1\r\nHost: www.example.org\r\nUser-Agent: Mozilla/5.0\r\n\
Accept: text/html,application/xhtml+xml\r\nAccept-Language: en-GB,en;q=0.5\r\n\
Accept-Encoding: gzip, deflate\r\nSet-At-Least: 3\r\nCache-Control: no-cache\r\n\
Connection: keep-alive\r\n\r\n";

// More than the bytes of the head before a body.
const BODY_HEAD: usize = 128;

// A part of a body, of 256 bytes.
const PART_OF_BODY: &str = "aaaaaaaaaaaaaaaaaaaaaaaaaaaaaaaaaaaaaaaaaaaaaaaaaaaaaaaaaaaaaaaa\
aaaaaaaaaaaaaaaaaaaaaaaaaaaaaaaaaaaaaaaaaaaaaaaaaaaaaaaaaaaaaaaa\
aaaaaaaaaaaaaaaaaaaaaaaaaaaaaaaaaaaaaaaaaaaaaaaaaaaaaaaaaaaaaaaa\
aaaaaaaaaaaaaaaaaaaaaaaaaaaaaaaaaaaaaaaaaaaaaaaaaaaaaaaaaaaaaaaa";

/// As many requests of 8 fields as fit.
pub fn heads(alloc: Global, size: usize) -> Result<String, AllocError>
    ensures { IfOk result (λ text. length (string_bytes text) ≤ size) }
{
    let mut text = String::new(alloc);
    push_units(&mut text, HEAD, size)?;
    Ok(text)
}

/// A request whose body takes all but some of the bytes.
pub fn body(alloc: Global, size: usize) -> Result<String, AllocError>
    ensures { IfOk result (λ text. length (string_bytes text) ≤ size) }
{
    let length = size.saturating_sub(BODY_HEAD);
    let head = format!(in alloc;
        "POST /p/a.html HTTP/1.1\r\nContent-Type: application/json\r\nContent-Length: {length}\r\n\r\n"
    )?;
    let mut text = String::with_capacity(alloc, size)?;
    push_within(&mut text, head.as_str(), size)?;
    push_units(&mut text, PART_OF_BODY, size)?;
    push_units(&mut text, "aaaaaaaa", size)?;
    Ok(text)
}

/// The requests that some bytes begin with, each read and answered by the number of a set, and the
/// bytes of the replies.
pub fn requests_counted(alloc: Global, text: &str) -> Result<String, AllocError> {
    let bytes = text.as_bytes();
    let mut at = 0;
    let mut count = 0u64;
    let mut written = 0u64;
    for _ in 0..bytes.len() {
        let rest = bytes.get(at..).unwrap_or(&[]);
        match answered(alloc, rest) {
            Ok(Some((used, reply))) => {
                at = at.saturating_add(used);
                written = written.saturating_add(reply as u64);
                count = count.saturating_add(1);
            }
            Ok(None) => break,
            Err(Memory) => return Err(AllocError),
        }
    }
    format!(in alloc; "{at} bytes of {count} requests, {written} bytes of replies")
}

// The first request of the bytes, answered: its bytes and those of its reply, or nothing where no
// request begins them.
fn answered(alloc: Global, bytes: &[u8]) -> Result<Option<(usize, usize)>, Memory> {
    let (request, used) = match read_request(alloc, bytes)? {
        ReadOne::Whole(request, used) => (request, used),
        _ => return Ok(None),
    };
    let reply: Reply = number_reply(alloc, 3)?;
    let text = reply_bytes(alloc, &reply, request.close)?;
    Ok(Some((used, text.len())))
}
