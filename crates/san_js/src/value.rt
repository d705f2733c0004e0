ghost use Rattle.std.specs.Prelude.{◌≡◌, ◌++◌, IfOk, OnOk, string_bytes};
ghost use Rattle.js_lexer.specs.Sanitizers as spec;
ghost use Rattle.page_datum.specs.Data.{int};
ghost use Rattle.page_datum.specs.View.{ref_view};
ghost use Rattle.js_lexer.specs.ScriptBack.{IsBackInScriptCode, IsJsonData, IsWholeNumber};

use crate::data::{push_dict, push_list, push_number};
use crate::quoted::push_quoted;
use js_lexer::data_are_plain;
use page_datum::DatumRef;
use page_io::{Memory, Text};
use std::alloc::Global;

/// What is written for a datum in the code of a script: JSON without blanks, in which `<`, `>`, `&`, U+2028 and U+2029
/// are escapes besides those that JSON asks for. A space stands on both sides of null, of a truth value and of a
/// number, so that it joins nothing beside it. In code, in no template literal, it is plain, whatever the datum: behind a
/// token, a word, a number or a run that is open, and a slash that divides; it is read there as the tokens of the
/// datum's literal, and as JSON it stands for the datum. Fails only if allocation fails. (RFC 8259; ECMA-262, section 12.3.)
pub fn js_value(alloc: Global, datum: DatumRef<'_>) -> Result<Text, Memory>
    ensures written { IfOk result (λ bytes. bytes ≡ spec.js_value (ref_view datum.entry)) }
    ensures in_code { IfOk result (λ bytes. IsBackInScriptCode (ref_view datum.entry) bytes) }
{
    data_are_plain();
    let mut out = String::new(alloc);
    push_js_value(&mut out, datum)?;
    Ok(Text::from(out))
}

/// Appends what `js_value` gives; JSON has each datum. Fails only if allocation fails, and then a part of it may be there.
pub fn push_js_value(out: &mut String, datum: DatumRef<'_>) -> Result<(), Memory>
    ensures bytes { OnOk result (string_bytes out.new
        ≡ string_bytes out.old ++ spec.js_value (ref_view datum.entry)) }
    ensures whole { OnOk result (IsJsonData (ref_view datum.entry)) }
{
    match datum {
        DatumRef::Null => out.push_str(" null ")?,
        DatumRef::Bool(true) => out.push_str(" true ")?,
        DatumRef::Bool(false) => out.push_str(" false ")?,
        DatumRef::Int(number) => push_spaced_number(out, number)?,
        DatumRef::Text(text) => push_quoted(out, text)?,
        DatumRef::List(values) => push_list(out, values)?,
        DatumRef::Dict(entries) => push_dict(out, entries)?,
    }
    Ok(())
}

fn push_spaced_number(out: &mut String, number: i64) -> Result<(), Memory>
    ensures bytes { OnOk result (string_bytes out.new
        ≡ string_bytes out.old ++ spec.js_value (int number)) }
    ensures whole { OnOk result (IsWholeNumber number) }
{
    out.push_str(" ")?;
    push_number(out, number)?;
    out.push_str(" ")?;
    Ok(())
}
