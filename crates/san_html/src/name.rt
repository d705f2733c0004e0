ghost use Rattle.std.specs.Prelude.{◌≡◌, ◌++◌, ◌↔◌, false, IfOk, OnOk, string_bytes};
ghost use Rattle.std.specs.Char.{is_ascii_alphanumeric};
ghost use Rattle.std.specs.List.{list_all};
ghost use Rattle.std.specs.Str.{str_to_ascii_lowercase};
ghost use Rattle.san_html.specs.ReadBack.{IsBackInTag};
ghost use Rattle.san_html.specs.Sanitizers.{failsafe};
ghost use Rattle.san_html.specs.Sanitizers as spec;

use crate::failsafe::FAILSAFE;
use html_words::special;
use page_io::{Memory, Text};
use std::alloc::Global;

/// What is written for a text where the name of an attribute is to stand: the text in lower case if it is letters and
/// digits of ASCII, one at least, and no special name (one whose value is a URL, a script or a style, or that decides
/// what the page does), and `ZgotmplZ` exactly for every other text. There it begins a name and is all of it, whatever
/// the text, if what ends a name stands after it. Fails only if allocation fails. (HTML Standard, section 13.1.2.3.)
pub fn attr_name(alloc: Global, text: &str) -> Result<Text, Memory>
    ensures written { IfOk result (λ bytes. bytes ≡ spec.attr_name text.now) }
    ensures failsafe { IfOk result (λ bytes.
        (bytes ≡ failsafe) ↔ (spec.is_attribute_name text.now ≡ false)) }
    ensures in_tag { IfOk result (λ bytes. IsBackInTag text.now bytes) }
{
    let mut out = String::new(alloc);
    push_attr_name(&mut out, text)?;
    Ok(Text::from(out))
}

/// Appends what `attr_name` gives. Fails only if allocation fails, and then a part of it may be there.
pub fn push_attr_name(out: &mut String, text: &str) -> Result<(), Memory>
    ensures { OnOk result (string_bytes out.new ≡ string_bytes out.old ++ spec.attr_name text.now) }
{
    if !is_name(text) {
        out.push_str(FAILSAFE)?;
        return Ok(());
    }
    push_lower_case(out, text)
}

// Whether a text is the name of an attribute that data may make.
fn is_name(text: &str) -> bool
    ensures { result ≡ spec.is_attribute_name text.now }
{
    !text.is_empty() && is_alphanumeric(text.as_bytes()) && !special(text)
}

fn is_alphanumeric(bytes: &[u8]) -> bool
    ensures { result ≡ list_all is_ascii_alphanumeric bytes.now }
{
    bytes.iter().all(|byte| byte.is_ascii_alphanumeric())
}

fn push_lower_case(out: &mut String, text: &str) -> Result<(), Memory>
    ensures { OnOk result (string_bytes out.new
        ≡ string_bytes out.old ++ str_to_ascii_lowercase text.now) }
{
    let lower = text.to_ascii_lowercase(*out.allocator())?;
    out.push_str(lower.as_str())?;
    Ok(())
}
