ghost use Rattle.std.specs.Prelude.{◌≡◌, ◌≤◌, All, length, map, take, IfOk};
ghost use Rattle.std.specs.List.{after_first, before_first};
ghost use Rattle.std.specs.Str.{IsUtf8};
ghost use Rattle.httparse.specs.Spans.{header_bytes, IsHeaderWithin, IsRequestOf, IsRequestWithin};
ghost use Rattle.page_http.specs.Fields.{SaysKnown};
ghost use Rattle.page_http.specs.Requests.{HasReadStatus, RequestAnswers, SaysRequest, front};
ghost use Rattle.page_http.specs.Requests.{is_question};

use crate::body_length::{BodyLength, body_length};
use crate::connection::closes;
use crate::content::{at_least, body_kind};
use crate::fields::{KnownFields, find_known};
use crate::request::Request;
use httparse::spans::{EMPTY_HEADER_SPAN, HeaderSpan, RequestSpans, parse_request};
use httparse::{Error, Status};
use page_io::{Bytes, Memory, Text};
use std::alloc::Global;

/// The most bytes that a head may have.
pub const MAX_HEAD: usize = 16_384;

/// The most fields that a head may have.
pub const MAX_FIELDS: usize = 64;

/// The most bytes that a body may have.
pub const MAX_BODY: usize = 1_048_576;

/// What stands at the beginning of some bytes.
#[derive(Debug, Drop)]
pub enum ReadOne {
    /// A request, which takes so many bytes.
    Whole(Request, usize),
    /// A part of a request: the head goes on, or the body does.
    More,
    /// No request that is taken; the status of the reply is 431, 400, 501 or 413.
    Refused(u16),
}

/// The first request of the bytes (RFC 9112, sections 2 to 6). Its head has at most `MAX_HEAD`
/// bytes and `MAX_FIELDS` fields. `Refused` is 431 where the head has more of either, 400 where it
/// is malformed, 501 where it has a field `Transfer-Encoding`, 400 where the length of the body is
/// not said once and in digits (a POST has to say it), and 413 where it is over `MAX_BODY`. Fails
/// only if allocation fails.
pub fn read_request(alloc: Global, bytes: &[u8]) -> Result<ReadOne, Memory>
    ensures answers { RequestAnswers bytes.now result }
    ensures status { HasReadStatus result }
{
    let mut headers = [EMPTY_HEADER_SPAN; MAX_FIELDS];
    let front = head_part(bytes);
    match parse_request(front, &mut headers) {
        Ok(Status::Complete(head)) => read_body(alloc, bytes, front, &headers, &head),
        Ok(Status::Partial) => {
            if bytes.len() < MAX_HEAD {
                Ok(ReadOne::More)
            } else {
                Ok(ReadOne::Refused(431))
            }
        }
        Err(Error::TooManyHeaders) => Ok(ReadOne::Refused(431)),
        Err(_) => Ok(ReadOne::Refused(400)),
    }
}

// What of the bytes a head may be in.
fn head_part(bytes: &[u8]) -> &[u8]
    ensures { result.now ≡ front bytes.now }
{
    if bytes.len() <= MAX_HEAD {
        return bytes;
    }
    let (part, _) = bytes.split_at(MAX_HEAD);
    part
}

// The request whose head was found.
fn read_body(
    alloc: Global,
    bytes: &[u8],
    buf: &[u8],
    headers: &[HeaderSpan],
    head: &RequestSpans,
) -> Result<ReadOne, Memory>
    requires front { buf.now ≡ front bytes.now }
    requires room { length headers.now ≤ 64 }
    requires within { IsRequestWithin buf.now headers.now head.now }
    requires head { IsRequestOf buf.now headers.now head.now }
    ensures answers { RequestAnswers bytes.now result }
    ensures status { HasReadStatus result }
{
    let (fields, _) = headers.split_at(head.headers);
    let method = text_of(head.method.of(buf));
    let target = text_of(head.path.of(buf));
    let known = find_known(buf, fields, head.len);
    let count = match body_length(known, method.as_bytes()) {
        BodyLength::Refused(status) => return Ok(ReadOne::Refused(status)),
        BodyLength::Bytes(count) => count as usize,
    };
    let (_, rest) = bytes.split_at(head.len);
    if rest.len() < count {
        return Ok(ReadOne::More);
    }
    let (body, _) = rest.split_at(count);
    match make_request(
        alloc,
        buf,
        fields,
        known,
        head.len,
        head.version,
        method,
        target,
        body,
    ) {
        Ok(request) => Ok(ReadOne::Whole(request, head.len + count)),
        Err(Memory) => Err(Memory),
    }
}

// The text of bytes that are one. Those of the method that most requests have are not tested again.
fn text_of(bytes: &[u8]) -> &str
    requires { IsUtf8 bytes.now }
    ensures { result.now ≡ bytes.now }
{
    if bytes == b"GET".as_slice() {
        return "GET";
    }
    match std::str::from_utf8(bytes) {
        Ok(text) => text,
        Err(_) => unreachable!(),
    }
}

// The request with these parts, and the fields of a head of `len` bytes.
fn make_request(
    alloc: Global,
    buf: &[u8],
    headers: &[HeaderSpan],
    known: KnownFields<'_>,
    len: usize,
    minor: u8,
    method: &str,
    target: &str,
    body: &[u8],
) -> Result<Request, Memory>
    requires len { len ≤ length buf.now }
    requires within { All (IsHeaderWithin len) headers.now }
    requires known { SaysKnown (map (header_bytes buf.now) headers.now) known }
    ensures says { IfOk result (SaysRequest method.now target.now minor
        (map (header_bytes buf.now) headers.now)) }
    ensures body { IfOk result (λ request. request.body ≡ body.now) }
{
    let (path, query) = split_target(target);
    Ok(Request {
        method: Text::copy_of(alloc, method)?,
        path: Text::copy_of(alloc, path)?,
        query: Bytes::copy_of(alloc, query.as_bytes())?,
        at_least: at_least(known.set_at_least),
        body_kind: body_kind(known.content_type),
        body: Bytes::copy_of(alloc, body)?,
        close: closes(buf, headers, len, minor, method.as_bytes()),
    })
}

// A target before its first question mark, and what follows that.
fn split_target(target: &str) -> (&str, &str)
    ensures path { result.0.now ≡ before_first is_question target.now }
    ensures query { result.1.now ≡ after_first is_question target.now }
{
    target.split_once('?').unwrap_or((target, ""))
}
