ghost use Rattle.std.specs.Prelude.{◌≡◌, ◌++◌, IfSome, OnOk, string_bytes};
ghost use Rattle.page_datum.specs.Data.{int};
ghost use Rattle.page_datum.specs.View.{ref_view};
ghost use Rattle.page_path.specs.Pages.{datum_bytes, san_bytes};
ghost use Rattle.page_path.specs.Textual.{IsTextBy, IsTextFor};
ghost use Rattle.page_writer.specs.Writing.{IsOrderedChain, IsWrittenAlike, ReadsText, value_written};

use page_datum::{DatumRef, print_datum};
use page_io::Memory;
use place_core::{Chain, San};
use san_css::{push_css_string, push_css_value};
use san_html::{push_attr_name, push_attr_nospace, push_html};
use san_js::{push_js_regexp, push_js_string, push_js_value};
use san_url::{push_url_norm, push_url_open, push_url_query, url_filter};
use std::alloc::Global;

/// What a chain keeps of a value: the digits of a number, and between two of its sanitizers one text that a sanitizer reads, and one to
/// which it writes. They are cleared and used again for the next value; these texts have no bytes where no chain has two.
#[derive(Drop)]
pub struct ChainBuffer {
    digits: String,
    first: String,
    second: String,
}

impl ChainBuffer {
    /// A buffer without bytes. Does not allocate.
    pub fn new(alloc: Global) -> ChainBuffer {
        ChainBuffer {
            digits: String::new(alloc),
            first: String::new(alloc),
            second: String::new(alloc),
        }
    }
}

/// Appends what a chain gives for a value: each sanitizer but the last writes to the buffer, and the last one to the text. Fails only if
/// allocation fails, and then a part of it may be there.
pub fn push_chain(
    out: &mut String,
    buffer: &mut ChainBuffer,
    chain: Chain,
    datum: DatumRef<'_>,
) -> Result<(), Memory>
    requires { IsOrderedChain chain }
    ensures bytes { OnOk result (string_bytes out.new
        ≡ string_bytes out.old ++ value_written chain (ref_view datum.entry)) }
    ensures textual { OnOk result (IsTextBy chain (ref_view datum.entry)) }
{
    if chain.count == 1 {
        return push_first(out, &mut buffer.digits, chain.sans[0], datum);
    }
    buffer.first.clear();
    push_first(&mut buffer.first, &mut buffer.digits, chain.sans[0], datum)?;
    if chain.count == 2 {
        return push_sanitized(out, chain.sans[1], buffer.first.as_str());
    }
    buffer.second.clear();
    push_sanitized(&mut buffer.second, chain.sans[1], buffer.first.as_str())?;
    push_sanitized(out, chain.sans[2], buffer.second.as_str())
}

// Appends what the first sanitizer of a chain gives for a value. That of a script's values reads the value itself; for another one it is
// printed only where its text is needed. Fails only if allocation fails, and then a part of it may be there.
fn push_first(
    out: &mut String,
    digits: &mut String,
    san: San,
    datum: DatumRef<'_>,
) -> Result<(), Memory>
    ensures bytes { OnOk result (string_bytes out.new
        ≡ string_bytes out.old ++ datum_bytes san (ref_view datum.entry)) }
    ensures textual { OnOk result (IsTextFor san (ref_view datum.entry)) }
{
    if san == San::JsValue {
        return push_js_value(out, datum);
    }
    if let DatumRef::Int(number) = datum {
        return push_number(out, digits, san, number);
    }
    match unprinted(san, datum) {
        Some(text) => push_sanitized(out, san, text),
        None => {
            let text = print_datum(*out.allocator(), datum)?;
            push_sanitized(out, san, text.as_str())
        }
    }
}

// The same of a number, whose digits take the place of what was in that buffer.
fn push_number(out: &mut String, digits: &mut String, san: San, number: i64) -> Result<(), Memory>
    requires { ReadsText san }
    ensures bytes { OnOk result (string_bytes out.new
        ≡ string_bytes out.old ++ datum_bytes san (int number)) }
    ensures textual { OnOk result (IsTextFor san (int number)) }
{
    digits.clear();
    write!(digits, "{number}")?;
    push_sanitized(out, san, digits.as_str())
}

// The text to sanitize in place of a printed value, where the value need not be printed: a text itself; of a list or a dictionary nothing
// where it is dropped, and `[` as a name, since neither that nor what is printed of them is a name.
fn unprinted<'d>(san: San, datum: DatumRef<'d>) -> Option<&'d str>
    requires { ReadsText san }
    ensures { IfSome result (λ text. IsWrittenAlike san text.now (ref_view datum.entry)) }
{
    match datum {
        DatumRef::Text(text) => Some(text),
        DatumRef::List(_) | DatumRef::Dict(_) => match san {
            San::Drop => Some(""),
            San::AttrName => Some("["),
            _ => None,
        },
        _ => None,
    }
}

// Appends what a sanitizer gives for a text; a copy is made only of a name, and of a text with a backslash in a style. Fails only if
// allocation fails, and then a part of it may be there.
fn push_sanitized(out: &mut String, san: San, text: &str) -> Result<(), Memory>
    requires { ReadsText san }
    ensures { OnOk result (string_bytes out.new
        ≡ string_bytes out.old ++ san_bytes san text.now) }
{
    match san {
        San::Html | San::Attr => push_html(out, text),
        San::AttrNospace => push_attr_nospace(out, text),
        San::AttrName => push_attr_name(out, text),
        San::Drop => Ok(()),
        San::UrlFilter => Ok(out.push_str(url_filter(text))?),
        San::UrlOpen => push_url_open(out, text),
        San::UrlNorm => push_url_norm(out, text),
        San::UrlQuery => push_url_query(out, text),
        San::CssValue => push_css_value(out, text),
        San::CssString => push_css_string(out, text),
        San::JsString => push_js_string(out, text),
        San::JsRegexp => push_js_regexp(out, text),
        San::JsValue => unreachable!(),
    }
}
