ghost use Rattle.std.specs.Prelude.{◌≡◌, [], codes};
ghost use Rattle.std.specs.Str.{bytes_eq};
ghost use Rattle.page_http.specs.Bodies.{IsKnownRefusal, length_by_values};
ghost use Rattle.page_http.specs.Findings.{length_found};

use crate::fields::{Found, KnownFields};
use crate::number::{Number, read_number};
use crate::read::MAX_BODY;

/// What a head says of the length of the body.
#[derive(Clone, Copy)]
pub enum BodyLength {
    /// It has so many bytes.
    Bytes(u64),
    /// The request is refused with this status.
    Refused(u16),
}

/// What the method and the fields of a head say of the length of its body.
pub fn body_length(known: KnownFields<'_>, method: &[u8]) -> BodyLength
    ensures value { result ≡ length_found (bytes_eq method.now (codes "POST"))
        known.entry.transfer_encoding known.entry.content_length }
    ensures status { IsKnownRefusal result }
{
    match known.transfer_encoding {
        Found::Nothing => {}
        _ => return BodyLength::Refused(501),
    }
    match known.content_length {
        Found::Nothing => without_length(method),
        Found::Once(value) => match read_number(value, MAX_BODY as u64) {
            Number::Value(count) => BodyLength::Bytes(count),
            Number::TooGreat => BodyLength::Refused(413),
            Number::NotDigits => BodyLength::Refused(400),
        },
        Found::Often => BodyLength::Refused(400),
    }
}

// The length without a field that says it: a POST has to have one.
fn without_length(method: &[u8]) -> BodyLength
    ensures value { result ≡ length_by_values (bytes_eq method.now (codes "POST")) [] }
    ensures status { IsKnownRefusal result }
{
    if method == b"POST".as_slice() {
        BodyLength::Refused(400)
    } else {
        BodyLength::Bytes(0)
    }
}
