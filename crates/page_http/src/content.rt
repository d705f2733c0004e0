ghost use Rattle.std.specs.Prelude.{◌≡◌};
ghost use Rattle.page_http.specs.Contents.{kind_by_type};
ghost use Rattle.page_http.specs.Findings.{kind_found, least_found};

use crate::fields::{Found, begins_with};
use crate::number::{Number, read_number};
use crate::request::{AtLeast, BodyKind};

/// The least number of a set that the fields `Set-At-Least` ask for.
pub fn at_least(found: Found<'_>) -> AtLeast
    ensures { result ≡ least_found found.entry }
{
    match found {
        Found::Nothing => AtLeast::Absent,
        Found::Once(value) => match read_number(value, u64::MAX) {
            Number::Value(number) => AtLeast::Number(number),
            _ => AtLeast::Bad,
        },
        Found::Often => AtLeast::Bad,
    }
}

/// How the body is to be read, by the fields `Content-Type`.
pub fn body_kind(found: Found<'_>) -> BodyKind
    ensures { result ≡ kind_found found.entry }
{
    match found {
        Found::Once(value) => kind_of_type(value),
        _ => BodyKind::Other,
    }
}

// How a body of this media type is to be read.
fn kind_of_type(value: &[u8]) -> BodyKind
    ensures { result ≡ kind_by_type value.now }
{
    if begins_with(value, b"application/json") {
        BodyKind::Json
    } else if begins_with(value, b"application/x-www-form-urlencoded") {
        BodyKind::Form
    } else {
        BodyKind::Other
    }
}
