ghost use Rattle.std.specs.Prelude.{◌≡◌, ◌≤◌, ◌∷◌, All, List, ℕ, length, map, if◌then◌else◌};
ghost use Rattle.httparse.specs.Spans.{header_bytes, IsHeaderWithin};
ghost use Rattle.page_http.specs.Fields.{begins_with_name, same_name, KnownSoFar, SaysKnown, SoFar};

use httparse::spans::HeaderSpan;

/// What the fields of a name say.
#[derive(Clone, Copy)]
pub enum Found<'b> {
    /// There is none.
    Nothing,
    /// There is one, with this value.
    Once(&'b [u8]),
    /// There are several.
    Often,
}

/// Whether two names are the same in any case.
pub fn is_same_name(name: &[u8], wanted: &[u8]) -> bool
    ensures { result ≡ same_name name.now wanted.now }
{
    name.eq_ignore_ascii_case(wanted)
}

/// Whether a text begins with a name, in any case.
pub fn begins_with(text: &[u8], name: &[u8]) -> bool
    ensures { result ≡ begins_with_name text.now name.now }
{
    if text.len() < name.len() {
        return false;
    }
    let (front, _) = text.split_at(name.len());
    is_same_name(front, name)
}

/// What the fields of a head say, by the names that a request is read by.
#[derive(Clone, Copy)]
pub struct KnownFields<'b> {
    pub transfer_encoding: Found<'b>,
    pub content_length: Found<'b>,
    pub content_type: Found<'b>,
    pub set_at_least: Found<'b>,
}

/// What the fields of a head of `len` bytes say, in one pass over them.
pub fn find_known<'b>(buf: &'b [u8], headers: &[HeaderSpan], len: usize) -> KnownFields<'b>
    requires len { len ≤ length buf.now }
    requires within { All (IsHeaderWithin len) headers.now }
    ensures { SaysKnown (map (header_bytes buf.now) headers.now) result }
{
    let mut known = KnownFields {
        transfer_encoding: Found::Nothing,
        content_length: Found::Nothing,
        content_type: Found::Nothing,
        set_at_least: Found::Nothing,
    };
    for header in headers {
        known = known_after(known, header.name.of(buf), header.value.of(buf));
    }
    known
}

// What is known after one more field.
#[inline(always)]
fn known_after<'b>(known: KnownFields<'b>, name: &[u8], value: &'b [u8]) -> KnownFields<'b>
    ensures { (all rest : List (List ℕ × List ℕ))
        → KnownSoFar all ((name.now, value.now) ∷ rest) known.entry → KnownSoFar all rest result }
{
    KnownFields {
        transfer_encoding: found_after(known.transfer_encoding, name, value, b"transfer-encoding"),
        content_length: found_after(known.content_length, name, value, b"content-length"),
        content_type: found_after(known.content_type, name, value, b"content-type"),
        set_at_least: found_after(known.set_at_least, name, value, b"set-at-least"),
    }
}

// What is found of a name after one more field.
#[inline(always)]
fn found_after<'b>(found: Found<'b>, name: &[u8], value: &'b [u8], wanted: &[u8]) -> Found<'b>
    ensures { (all rest : List (List ℕ))
        → SoFar all (if same_name name.now wanted.now then value.now ∷ rest else rest) found.entry
        → SoFar all rest result }
{
    if !is_same_name(name, wanted) {
        return found;
    }
    match found {
        Found::Nothing => Found::Once(value),
        Found::Once(_) => Found::Often,
        Found::Often => Found::Often,
    }
}
