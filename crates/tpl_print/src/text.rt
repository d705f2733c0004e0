ghost use Rattle.std.specs.Prelude.{◌≡◌, ◌++◌, ◌<◌, codes, OnOk};
ghost use Rattle.std.specs.Fmt.{signed_decimal};
ghost use Rattle.tpl_print.specs.Pipes.{fields_text};
ghost use Rattle.tpl_print.specs.Replaced.{always, replaced_bytes};
ghost use Rattle.tpl_print.specs.Replaced as spec;

use page_io::{Memory, Text};
use std::alloc::Global;

// Appends a text, with another one instead of each of its characters `mark`, which is ASCII.
fn push_replaced(out: &mut Text, text: &str, mark: char, by: &str) -> Result<(), Memory>
    requires { mark < 128 }
    ensures { OnOk result (out.new ≡ out.old ++ replaced_bytes mark (always by.now) text.now) }
{
    let mut left = text;
    while let Some((prefix, rest)) = left.split_once(mark) {
        out.push_str(prefix)?;
        out.push_str(by)?;
        left = rest;
    }
    out.push_str(left)
}

/// Appends a text that stands outside actions, which an action follows or not.
pub(crate) fn push_guarded(out: &mut Text, text: &str, followed: bool) -> Result<(), Memory>
    ensures { OnOk result (out.new ≡ out.old ++ spec.guarded followed text.now) }
{
    let mut left = text;
    while let Some((prefix, rest)) = left.split_once('{') {
        out.push_str(prefix)?;
        out.push_str(brace(followed, rest))?;
        left = rest;
    }
    out.push_str(left)
}

// A brace before a text.
fn brace(followed: bool, after: &str) -> &'static str
    ensures { result.now ≡ spec.brace followed after.now }
{
    if joins(followed, after.as_bytes()) {
        return "{ {{- /**/}}";
    }
    "{"
}

// Whether a brace comes next.
fn joins(followed: bool, after: &[u8]) -> bool
    ensures { result ≡ spec.joins followed after.now }
{
    match after {
        [] => followed,
        [byte, ..] => *byte == b'{',
    }
}

/// Appends the value of a string, as it stands between double quotes.
pub(crate) fn push_escaped(alloc: Global, out: &mut Text, value: &str) -> Result<(), Memory>
    ensures { OnOk result (out.new ≡ out.old ++ spec.print_escaped value.now) }
{
    let mut slashed = Text::new(alloc);
    push_replaced(&mut slashed, value, '\\', "\\\\")?;
    let mut quoted = Text::new(alloc);
    push_replaced(&mut quoted, slashed.as_str(), '"', "\\\"")?;
    push_replaced(out, quoted.as_str(), '\n', "\\n")
}

/// Appends a number in decimal.
pub(crate) fn push_number(alloc: Global, out: &mut Text, number: i64) -> Result<(), Memory>
    ensures { OnOk result (out.new ≡ out.old ++ signed_decimal number) }
{
    let digits = format!(in alloc; "{number}")?;
    out.push_str(digits.as_str())
}

/// Appends fields, each after its dot.
pub(crate) fn push_fields(out: &mut Text, fields: &[Text]) -> Result<(), Memory>
    ensures { OnOk result (out.new ≡ out.old ++ fields_text fields.now) }
{
    for name in fields {
        out.push_str(".")?;
        out.push_str(name.as_str())?;
    }
    Ok(())
}
