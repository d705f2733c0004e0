ghost use Rattle.std.specs.Prelude.{◌≡◌, ◌<◌, ◌≤◌, ◌++◌, IfOk, OnOk, length, string_bytes};
ghost use Rattle.san_url.specs.Back.{IsBackInPart};
ghost use Rattle.san_url.specs.Runs.{IsWrittenBetween};
ghost use Rattle.san_url.specs.Stays.{unkept_written};
ghost use Rattle.url_lexer.specs.Kept as kept;
ghost use Rattle.url_lexer.specs.Parts.{UrlPrequery};
ghost use Rattle.url_lexer.specs.Sanitizers as spec;

use crate::kept::kept_in_url;
use crate::run::push_kept;
use crate::triple::push_triple;
use page_io::{Memory, Text};
use std::alloc::Global;
use url_lexer::{written_is_plain, written_reads_back};

/// What is written for a text in a URL where no scheme can end any more, before `?` and `#`: what may stand in a URL
/// is kept, percent triples too, and every other byte is a percent triple. There it is plain, whatever the text, and
/// reads back as the text, with the triples of both undone. Fails only if allocation fails. (RFC 3986, sections 2.1 to 2.3.)
pub fn url_norm(alloc: Global, text: &str) -> Result<Text, Memory>
    ensures written { IfOk result (λ bytes. bytes ≡ spec.url_norm text.now) }
    ensures in_prequery { IfOk result (λ bytes. IsBackInPart UrlPrequery text.now bytes) }
{
    written_is_plain();
    written_reads_back();
    let mut out = String::new(alloc);
    push_url_norm(&mut out, text)?;
    Ok(Text::from(out))
}

/// Appends what `url_norm` gives. Fails only if allocation fails, and then a part of it may be there.
pub fn push_url_norm(out: &mut String, text: &str) -> Result<(), Memory>
    ensures { OnOk result (string_bytes out.new ≡ string_bytes out.old ++ spec.url_norm text.now) }
{
    let mut at = 0;
    while at < text.len() {
        at = push_norm_from(out, text, at)?;
    }
    Ok(())
}

// Appends the run of bytes that are kept from a place on, and what is written for the byte behind it, if there is one. Gives
// the place of the rest.
fn push_norm_from(out: &mut String, text: &str, at: usize) -> Result<usize, Memory>
    requires inside { at < length text.now }
    ensures written { IfOk result (λ rest. IsWrittenBetween spec.url_norm text.now at rest
        (string_bytes out.old) (string_bytes out.new)) }
    ensures later { IfOk result (λ rest. at < rest) }
    ensures within { IfOk result (λ rest. rest ≤ length text.now) }
{
    let bytes = text.as_bytes();
    let end = push_kept(out, kept_in_url(), text, at)?;
    if end == bytes.len() {
        return Ok(end);
    }
    push_unkept(out, bytes[end], &bytes[end + 1..])?;
    Ok(end + 1)
}

/// Appends what is written for a byte before these that stays nowhere by itself: `%` where it begins a percent triple, else its triple.
pub(crate) fn push_unkept(out: &mut String, byte: u8, behind: &[u8]) -> Result<(), Memory>
    ensures { OnOk result (string_bytes out.new
        ≡ string_bytes out.old ++ unkept_written byte behind.now) }
{
    if byte == b'%' && begins_with_digits(behind) {
        out.push('%')?;
        return Ok(());
    }
    push_triple(out, byte)
}

fn begins_with_digits(bytes: &[u8]) -> bool
    ensures { result ≡ kept.begins_with_digits bytes.now }
{
    match bytes {
        [first, second, ..] => first.is_ascii_hexdigit() && second.is_ascii_hexdigit(),
        _ => false,
    }
}
