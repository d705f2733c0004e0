ghost use Rattle.std.specs.Prelude.{◌≡◌, ◌≤◌, All, codes, length, map};
ghost use Rattle.std.specs.List.{list_all, list_any, position, prefix_len};
ghost use Rattle.httparse.specs.Grammar as grammar;
ghost use Rattle.httparse.specs.Spans.{header_bytes, IsHeaderWithin};
ghost use Rattle.page_http.specs.Fields.{values, is_comma};
ghost use Rattle.page_http.specs.Closing as spec;

use crate::fields::{begins_with, is_same_name};
use httparse::spans::HeaderSpan;

/// Whether the connection ends with the reply, by the version, the method and the fields of a head
/// of `len` bytes.
pub fn closes(buf: &[u8], headers: &[HeaderSpan], len: usize, minor: u8, method: &[u8]) -> bool
    requires len { len ≤ length buf.now }
    requires within { All (IsHeaderWithin len) headers.now }
    ensures { result ≡ spec.ends_connection minor method.now
        (map (header_bytes buf.now) headers.now) }
{
    minor == 0 || is_last_method(method) || asks_close(buf, headers, len)
}

// Whether the connection ends with the reply to this method: a client that sends HEAD reads no body
// of it, and one that sends CONNECT may take what follows it for the tunnel.
fn is_last_method(method: &[u8]) -> bool
    ensures { result ≡ spec.is_last_method method.now }
{
    method == b"HEAD".as_slice() || method == b"CONNECT".as_slice()
}

// Whether a field `Connection` lists `close`.
fn asks_close(buf: &[u8], headers: &[HeaderSpan], len: usize) -> bool
    requires len { len ≤ length buf.now }
    requires within { All (IsHeaderWithin len) headers.now }
    ensures { result ≡ list_any spec.lists_close
        (values (codes "connection") (map (header_bytes buf.now) headers.now)) }
{
    for header in headers {
        if is_same_name(header.name.of(buf), b"connection") && lists_close(header.value.of(buf)) {
            return true;
        }
    }
    false
}

// Whether a list has the element `close`.
fn lists_close(value: &[u8]) -> bool
    ensures { result ≡ spec.lists_close value.now }
{
    let mut rest = value;
    while let Some(at) = comma_in(rest) {
        let (element, others) = rest.split_at(at);
        if is_close(element) {
            return true;
        }
        let (_, after) = others.split_at(1);
        rest = after;
    }
    is_close(rest)
}

fn comma_in(list: &[u8]) -> Option<usize>
    ensures { result ≡ position is_comma list.now }
{
    list.iter().position(|byte| *byte == b',')
}

// Whether an element is `close` with white space round it.
fn is_close(element: &[u8]) -> bool
    ensures { result ≡ spec.is_close_option element.now }
{
    let (_, option) = element.split_at(ows_len(element));
    if !begins_with(option, b"close") {
        return false;
    }
    let (_, rest) = option.split_at(5);
    is_all_ows(rest)
}

// How much white space a text begins with.
fn ows_len(text: &[u8]) -> usize
    ensures value { result ≡ prefix_len grammar.is_ows text.now }
    ensures bound { result ≤ length text.now }
{
    text.iter().take_while(|byte| is_ows(**byte)).count()
}

fn is_all_ows(text: &[u8]) -> bool
    ensures { result ≡ list_all grammar.is_ows text.now }
{
    text.iter().all(|byte| is_ows(*byte))
}

fn is_ows(byte: u8) -> bool
    ensures { result ≡ grammar.is_ows byte }
{
    byte == b' ' || byte == b'\t'
}
