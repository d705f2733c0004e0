ghost use Rattle.std.specs.Prelude.{◌≡◌, ◌++◌, IfOk, OnOk, string_bytes};
ghost use Rattle.esc_table.specs.Replaced.{replaced};
ghost use Rattle.san_html.specs.ReadBack.{IsBackInUnquoted};
ghost use Rattle.san_html.specs.Sanitizers.{attr_nospace_rows};
ghost use Rattle.san_html.specs.Sanitizers as spec;

use crate::failsafe::FAILSAFE;
use esc_table::{push_replaced, table};
use page_io::{Memory, Text};
use std::alloc::Global;

/// What is written for a text in an unquoted value of an attribute, or where one is to begin: besides what `attr`
/// escapes, white space, `=` and backquotes are character references too, and for the empty text `ZgotmplZ` is written,
/// since there the value would be whatever comes next. There it is plain if the attribute is of kind Plain, where no
/// reference is open before it, and is read back as the text, NUL as U+FFFD, or as that word. The error is want of
/// memory. (HTML Standard, section 13.1.2.3.)
pub fn attr_nospace(alloc: Global, text: &str) -> Result<Text, Memory>
    ensures written { IfOk result (λ bytes. bytes ≡ spec.attr_nospace text.now) }
    ensures in_unquoted { IfOk result (λ bytes. IsBackInUnquoted text.now bytes) }
{
    let mut out = String::new(alloc);
    push_attr_nospace(&mut out, text)?;
    Ok(Text::from(out))
}

/// Appends what `attr_nospace` gives. Fails only if allocation fails, and then a part of it may be there.
pub fn push_attr_nospace(out: &mut String, text: &str) -> Result<(), Memory>
    ensures { OnOk result (string_bytes out.new
        ≡ string_bytes out.old ++ spec.attr_nospace text.now) }
{
    if text.is_empty() {
        out.push_str(FAILSAFE)?;
        return Ok(());
    }
    push_escaped(out, text)
}

fn push_escaped(out: &mut String, text: &str) -> Result<(), Memory>
    ensures { OnOk result (string_bytes out.new
        ≡ string_bytes out.old ++ replaced attr_nospace_rows text.now) }
{
    let table = table! {
        '\0' => "&#xfffd;",
        '\t' => "&#9;",
        '\n' => "&#10;",
        '\u{B}' => "&#11;",
        '\u{C}' => "&#12;",
        '\r' => "&#13;",
        ' ' => "&#32;",
        '=' => "&#61;",
        '`' => "&#96;",
        '"' => "&#34;",
        '&' => "&amp;",
        '\'' => "&#39;",
        '+' => "&#43;",
        '<' => "&lt;",
        '>' => "&gt;",
    };
    push_replaced(out, &table, text)
}
