// JSON without blanks. (RFC 8259.)
ghost use Rattle.std.specs.Prelude.{◌≡◌, ◌++◌, OnOk, string_bytes};
ghost use Rattle.std.specs.Fmt.{signed_decimal};
ghost use Rattle.js_lexer.specs.Sanitizers.{json};
ghost use Rattle.js_lexer.specs.ScriptBack.{IsWholeNumber, IsJsonData, AreJsonItems};
ghost use Rattle.page_datum.specs.Data.{dict, list};
ghost use Rattle.page_datum.specs.View.{items_view, view};

use crate::quoted::push_quoted;
use page_datum::{Datum, Entries};
use page_io::Memory;

/// Appends a number in decimal.
pub(crate) fn push_number(out: &mut String, number: i64) -> Result<(), Memory>
    ensures bytes { OnOk result (string_bytes out.new
        ≡ string_bytes out.old ++ signed_decimal number) }
    ensures whole { OnOk result (IsWholeNumber number) }
{
    let alloc = *out.allocator();
    let digits = format!(in alloc; "{number}")?;
    out.push_str(digits.as_str())?;
    Ok(())
}

#[cycle(push)]
fn push_datum(out: &mut String, datum: &Datum) -> Result<(), Memory>
    ensures bytes { OnOk result (string_bytes out.new
        ≡ string_bytes out.old ++ json (view datum.now)) }
    ensures whole { OnOk result (IsJsonData (view datum.now)) }
{
    match datum {
        Datum::Null => out.push_str("null")?,
        Datum::Bool(true) => out.push_str("true")?,
        Datum::Bool(false) => out.push_str("false")?,
        Datum::Int(number) => push_number(out, *number)?,
        Datum::Text(text) => push_quoted(out, text.as_str())?,
        Datum::List(items) => push_list(out, items.as_slice())?,
        Datum::Dict(entries) => push_dict(out, entries)?,
    }
    Ok(())
}

/// Appends a list: values with a comma between two.
#[cycle(push)]
pub(crate) fn push_list(out: &mut String, values: &[Datum]) -> Result<(), Memory>
    ensures bytes { OnOk result (string_bytes out.new
        ≡ string_bytes out.old ++ json (list (items_view values.now))) }
    ensures whole { OnOk result (AreJsonItems (items_view values.now)) }
{
    out.push_str("[")?;
    let mut first = true;
    for value in values {
        if !first {
            out.push_str(",")?;
        }
        first = false;
        push_datum(out, value)?;
    }
    out.push_str("]")?;
    Ok(())
}

/// Appends a dictionary: keys as strings with their values, with a comma between two.
#[cycle(push)]
pub(crate) fn push_dict(out: &mut String, entries: &Entries) -> Result<(), Memory>
    ensures bytes { OnOk result (string_bytes out.new
        ≡ string_bytes out.old ++ json (dict entries.now)) }
    ensures whole { OnOk result (IsJsonData (dict entries.now)) }
{
    out.push_str("{")?;
    let mut first = true;
    for (key, value) in entries.as_slice() {
        if !first {
            out.push_str(",")?;
        }
        first = false;
        push_quoted(out, key.as_str())?;
        out.push_str(":")?;
        push_datum(out, value)?;
    }
    out.push_str("}")?;
    Ok(())
}
