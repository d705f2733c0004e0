ghost use Rattle.std.specs.Prelude.{◌≡◌, ◌++◌, IfOk, OnOk, string_bytes};
ghost use Rattle.san_html.specs.ReadBack.{IsBackInText, IsBackInRcdata, IsBackInBlock, IsBackInQuoted};
ghost use Rattle.san_html.specs.Sanitizers as spec;

use esc_table::{push_replaced, table};
use page_io::{Memory, Text};
use std::alloc::Global;

/// What is written for a text in a text, a title, a textarea or a data block: NUL becomes U+FFFD, each of `"&'+<>` a
/// character reference, and every other character stays. There it is plain, whatever the text, where no reference and
/// no `<` is open before it, and is read back as the text, NUL as U+FFFD; in a data block once references are undone.
/// Fails only if allocation fails. (HTML Standard, section 13.1.4.)
pub fn html(alloc: Global, text: &str) -> Result<Text, Memory>
    ensures written { IfOk result (λ bytes. bytes ≡ spec.html text.now) }
    ensures in_text { IfOk result (λ bytes. IsBackInText text.now bytes) }
    ensures in_rcdata { IfOk result (λ bytes. IsBackInRcdata text.now bytes) }
    ensures in_block { IfOk result (λ bytes. IsBackInBlock text.now bytes) }
{
    escape(alloc, text)
}

/// What is written for a text in a quoted value of an attribute: the same as `html` writes. There it is plain if the
/// attribute is of kind Plain, where no reference is open before it, and is read back as the text, NUL as U+FFFD. Fails only if allocation fails. (HTML Standard, section 13.1.2.3.)
pub fn attr(alloc: Global, text: &str) -> Result<Text, Memory>
    ensures written { IfOk result (λ bytes. bytes ≡ spec.html text.now) }
    ensures in_quoted { IfOk result (λ bytes. IsBackInQuoted text.now bytes) }
{
    escape(alloc, text)
}

fn escape(alloc: Global, text: &str) -> Result<Text, Memory>
    ensures { IfOk result (λ bytes. bytes ≡ spec.html text.now) }
{
    let mut out = String::new(alloc);
    push_html(&mut out, text)?;
    Ok(Text::from(out))
}

/// Appends what `html` and `attr` give. Fails only if allocation fails, and then a part of it may be there.
pub fn push_html(out: &mut String, text: &str) -> Result<(), Memory>
    ensures { OnOk result (string_bytes out.new ≡ string_bytes out.old ++ spec.html text.now) }
{
    let table = table! {
        '\0' => "\u{FFFD}",
        '"' => "&#34;",
        '&' => "&amp;",
        '\'' => "&#39;",
        '+' => "&#43;",
        '<' => "&lt;",
        '>' => "&gt;",
    };
    push_replaced(out, &table, text)
}
