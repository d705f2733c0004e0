ghost use Rattle.std.specs.Prelude.{◌≡◌, ◌<◌, ◌≤◌, ◌++◌, IfOk, OnOk, length, string_bytes};
ghost use Rattle.san_url.specs.Back.{IsBackInPart};
ghost use Rattle.san_url.specs.Runs.{IsWrittenBetween};
ghost use Rattle.url_lexer.specs.Parts.{UrlQuery};
ghost use Rattle.url_lexer.specs.Sanitizers as spec;

use crate::kept::unreserved;
use crate::run::push_kept;
use crate::triple::push_triple;
use page_io::{Memory, Text};
use std::alloc::Global;
use url_lexer::{written_is_plain, written_reads_back};

/// What is written for a text in the query or the fragment of a URL: unreserved bytes alone are kept, and every other
/// byte is a percent triple, `%` too. There it is plain, whatever the text, and with its triples undone it is the
/// text. Fails only if allocation fails. (RFC 3986, sections 2.1 and 2.3.)
pub fn url_query(alloc: Global, text: &str) -> Result<Text, Memory>
    ensures written { IfOk result (λ bytes. bytes ≡ spec.url_query text.now) }
    ensures in_query { IfOk result (λ bytes. IsBackInPart UrlQuery text.now bytes) }
{
    written_is_plain();
    written_reads_back();
    let mut out = String::new(alloc);
    push_url_query(&mut out, text)?;
    Ok(Text::from(out))
}

/// Appends what `url_query` gives. Fails only if allocation fails, and then a part of it may be there.
pub fn push_url_query(out: &mut String, text: &str) -> Result<(), Memory>
    ensures { OnOk result (string_bytes out.new
        ≡ string_bytes out.old ++ spec.url_query text.now) }
{
    let mut at = 0;
    while at < text.len() {
        at = push_query_from(out, text, at)?;
    }
    Ok(())
}

// Appends the run of unreserved bytes from a place on, and the percent triple of the byte behind it, if there is one. Gives the
// place of the rest.
fn push_query_from(out: &mut String, text: &str, at: usize) -> Result<usize, Memory>
    requires inside { at < length text.now }
    ensures written { IfOk result (λ rest. IsWrittenBetween spec.url_query text.now at rest
        (string_bytes out.old) (string_bytes out.new)) }
    ensures later { IfOk result (λ rest. at < rest) }
    ensures within { IfOk result (λ rest. rest ≤ length text.now) }
{
    let bytes = text.as_bytes();
    let end = push_kept(out, unreserved(), text, at)?;
    if end == bytes.len() {
        return Ok(end);
    }
    push_triple(out, bytes[end])?;
    Ok(end + 1)
}
