ghost use Rattle.std.specs.Prelude.{◌≡◌, ◌≢◌, ◌↔◌, ◌++◌, IsTrue, IfOk, OnOk, codes};
ghost use Rattle.std.specs.Fmt.{decimal};
ghost use Rattle.page_http.specs.Replies.{IsReplyStatus, IsSendable, reply_text};
ghost use Rattle.page_http.specs.Replies.{status_line};
ghost use Rattle.page_http.specs.Replies as spec;
ghost use Rattle.page_http.specs.declared.reply.Allow.TheVariants as allow;

use http::StatusCode;
use itoa::Buffer;
use page_io::{Bytes, Memory};
use std::alloc::Global;

/// The methods that a route has, for the field `Allow` (RFC 9110, section 10.2.1).
#[derive(Clone, Copy, Debug, PartialEq, Eq)]
pub enum Allow {
    /// No field.
    Nothing,
    /// `GET`
    Get,
    /// `POST`
    Post,
    /// `GET, POST`
    GetPost,
}

/// A reply, but for whether the connection stays open.
#[derive(Debug, Drop)]
pub struct Reply {
    /// The status code (RFC 9110, section 15).
    pub status: u16,
    /// Whether the body is HTML; it is plain text where it is not.
    pub html: bool,
    /// The number of the set that the reply was made with.
    pub number: u64,
    /// The methods of the route, which are sent with the status 405 alone.
    pub allow: Allow,
    pub body: Bytes,
}

impl Reply {
    /// Whether the bytes of the reply can be made: its status is one that a reply may have, and
    /// with 405 it names methods.
    pub fn is_sendable(&self) -> bool
        ensures { IsTrue result ↔ IsSendable self.now }
    {
        is_reply_status(self.status) && (self.status != 405 || names_methods(self.allow))
    }
}

/// Whether a reply may have the status: 200, 400, 404, 405, 409, 413, 415, 422, 431, 500, 501 or
/// 503.
pub fn is_reply_status(status: u16) -> bool
    ensures { IsTrue result ↔ IsReplyStatus status }
{
    matches!(
        status,
        200 | 400 | 404 | 405 | 409 | 413 | 415 | 422 | 431 | 500 | 501 | 503
    )
}

fn names_methods(methods: Allow) -> bool
    ensures { IsTrue result ↔ (methods ≢ allow.Nothing) }
{
    match methods {
        Allow::Nothing => false,
        _ => true,
    }
}

// More than the head of any reply.
const HEAD_ROOM: usize = 256;

/// The bytes of a reply (RFC 9112, section 4), in one piece of memory that is reserved once. Fails
/// only if allocation fails.
pub fn reply_bytes(alloc: Global, reply: &Reply, close: bool) -> Result<Bytes, Memory>
    requires { IsSendable reply.now }
    ensures { IfOk result (λ bytes. bytes ≡ reply_text reply.now close) }
{
    let body = reply.body.as_slice();
    let mut out = Vec::with_capacity(alloc, body.len().saturating_add(HEAD_ROOM))?;
    push_status(&mut out, reply.status)?;
    push_fields(&mut out, reply, close)?;
    out.extend_from_slice(body)?;
    Ok(Bytes::from(out))
}

// Appends the line of the status.
fn push_status(out: &mut Vec<u8>, status: u16) -> Result<(), Memory>
    requires { IsReplyStatus status }
    ensures { OnOk result (out.new.items ≡ out.old.items ++ status_line status) }
{
    if status == 200 {
        return push_status_200(out);
    }
    let mut digits = Buffer::new();
    out.extend_from_slice(b"HTTP/1.1 ")?;
    out.extend_from_slice(digits.format(status).as_bytes())?;
    out.extend_from_slice(b" ")?;
    out.extend_from_slice(phrase(status).as_bytes())?;
    out.extend_from_slice(b"\r\n")?;
    Ok(())
}

// Appends the line of the status that most replies have, in one piece.
fn push_status_200(out: &mut Vec<u8>) -> Result<(), Memory>
    ensures { OnOk result (out.new.items ≡ out.old.items ++ status_line 200) }
{
    out.extend_from_slice(b"HTTP/1.1 200 OK\r\n")?;
    Ok(())
}

/// The phrase of a status.
pub(crate) fn phrase(status: u16) -> &'static str
    requires { IsReplyStatus status }
    ensures { result.now ≡ spec.phrase status }
{
    match StatusCode::from_u16(status) {
        Ok(code) => code.canonical_reason().unwrap_or(""),
        Err(_) => "",
    }
}

// Appends the fields, and the empty line behind them.
fn push_fields(out: &mut Vec<u8>, reply: &Reply, close: bool) -> Result<(), Memory>
    ensures { OnOk result (out.new.items ≡ out.old.items ++ spec.fields reply.now close) }
{
    push_number(out, before_length(reply.html), reply.body.len() as u64)?;
    push_number(out, b"\r\nSet-Number: ", reply.number)?;
    out.extend_from_slice(after_number(reply.status, reply.allow))?;
    out.extend_from_slice(connection(close))?;
    Ok(())
}

// Appends what stands before a number, and the number.
pub(crate) fn push_number(out: &mut Vec<u8>, before: &[u8], number: u64) -> Result<(), Memory>
    ensures { OnOk result (out.new.items ≡ out.old.items ++ (before.now ++ decimal number)) }
{
    let mut digits = Buffer::new();
    out.extend_from_slice(before)?;
    out.extend_from_slice(digits.format(number).as_bytes())?;
    Ok(())
}

// The field of the type, and the name of the one of the length.
fn before_length(html: bool) -> &'static [u8]
    ensures { result.now ≡ spec.content_type html ++ codes "Content-Length: " }
{
    if html {
        b"Content-Type: text/html; charset=utf-8\r\nContent-Length: "
    } else {
        b"Content-Type: text/plain; charset=utf-8\r\nContent-Length: "
    }
}

// The end of the line of the number, and the field of the methods.
fn after_number(status: u16, allow: Allow) -> &'static [u8]
    ensures { result.now ≡ spec.crlf ++ spec.allowed status allow }
{
    if status != 405 {
        return b"\r\n";
    }
    match allow {
        Allow::Nothing => b"\r\n",
        Allow::Get => b"\r\nAllow: GET\r\n",
        Allow::Post => b"\r\nAllow: POST\r\n",
        Allow::GetPost => b"\r\nAllow: GET, POST\r\n",
    }
}

fn connection(close: bool) -> &'static [u8]
    ensures { result.now ≡ spec.connection close }
{
    if close {
        b"Connection: close\r\n\r\n"
    } else {
        b"Connection: keep-alive\r\n\r\n"
    }
}
