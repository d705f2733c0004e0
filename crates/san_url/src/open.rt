ghost use Rattle.std.specs.Prelude.{◌≡◌, ◌<◌, ◌≤◌, ◌++◌, IfOk, OnOk, length, string_bytes};
ghost use Rattle.san_url.specs.Back.{IsBackInPart};
ghost use Rattle.san_url.specs.Runs.{IsWrittenBetween};
ghost use Rattle.san_url.specs.Stays as stays;
ghost use Rattle.url_lexer.specs.Parts.{UrlOpen, UrlOpenhole};
ghost use Rattle.url_lexer.specs.Prefixes.{Prefix};
ghost use Rattle.url_lexer.specs.Sanitizers as spec;

use crate::kept::kept_in_beginning;
use crate::norm::{push_unkept, push_url_norm};
use crate::run::push_kept;
use page_io::{Memory, Text};
use std::alloc::Global;
use url_lexer::{written_is_plain, written_reads_back};

/// What is written for a text in the beginning of a URL, where a scheme may still end: each `:` that no `/`, `?` or `#`
/// of the text precedes is `%3a`, and all else is as `url_norm` writes it. There it is plain, whatever the text, so it
/// ends no scheme; and it reads back as the text, with the triples of both undone. Fails only if allocation fails. (RFC 3986,
/// sections 2.1 to 2.3 and 3.1; URL Standard, section 4.4, "scheme state".)
pub fn url_open(alloc: Global, text: &str) -> Result<Text, Memory>
    ensures written { IfOk result (λ bytes. bytes ≡ spec.url_open text.now) }
    ensures in_open { IfOk result (λ bytes.
        (p : Prefix) → IsBackInPart (UrlOpen p) text.now bytes) }
    ensures in_openhole { IfOk result (λ bytes. IsBackInPart UrlOpenhole text.now bytes) }
{
    written_is_plain();
    written_reads_back();
    let mut out = String::new(alloc);
    push_url_open(&mut out, text)?;
    Ok(Text::from(out))
}

/// Appends what `url_open` gives. Fails only if allocation fails, and then a part of it may be there.
pub fn push_url_open(out: &mut String, text: &str) -> Result<(), Memory>
    ensures { OnOk result (string_bytes out.new ≡ string_bytes out.old ++ spec.url_open text.now) }
{
    let mut at = 0;
    while at < text.len() {
        at = push_open_from(out, text, at)?;
    }
    Ok(())
}

// Appends the run of bytes that stay in the beginning from a place on, and what is written for the byte behind it, if there is
// one; where that ends the beginning, for all from it on. Gives the place of the rest.
fn push_open_from(out: &mut String, text: &str, at: usize) -> Result<usize, Memory>
    requires inside { at < length text.now }
    ensures written { IfOk result (λ rest. IsWrittenBetween spec.url_open text.now at rest
        (string_bytes out.old) (string_bytes out.new)) }
    ensures later { IfOk result (λ rest. at < rest) }
    ensures within { IfOk result (λ rest. rest ≤ length text.now) }
{
    let bytes = text.as_bytes();
    let end = push_kept(out, kept_in_beginning(), text, at)?;
    if end == bytes.len() {
        return Ok(end);
    }
    if ends_beginning(bytes[end]) {
        push_url_norm(out, &text[end..])?;
        return Ok(bytes.len());
    }
    push_unkept(out, bytes[end], &bytes[end + 1..])?;
    Ok(end + 1)
}

// Whether a byte ends the beginning of a URL.
fn ends_beginning(byte: u8) -> bool
    ensures { result ≡ stays.ends_beginning byte }
{
    matches!(byte, b'/' | b'?' | b'#')
}
