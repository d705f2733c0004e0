ghost use Rattle.std.specs.Prelude.{◌≡◌, ◌++◌, IfOk, OnOk};
ghost use Rattle.page_datum.specs.Data.{dict, list};
ghost use Rattle.page_datum.specs.Printed.{printed, shown};
ghost use Rattle.page_datum.specs.Single.{shown_single};
ghost use Rattle.std.specs.Fmt.{signed_decimal};
ghost use Rattle.page_datum.specs.View.{items_view, ref_view, view};

use crate::datum::{Datum, Entries};
use crate::datum_ref::DatumRef;
use page_io::{Memory, Text};
use std::alloc::Global;

/// A value as text: a text itself, a number in decimal, `true` or `false`, a list as `[1 2]`, a
/// dictionary as `map[a:1 b:2]`. Null by itself is the empty text, and inside others `<nil>`. Fails only if allocation fails.
pub fn print_datum(alloc: Global, datum: DatumRef<'_>) -> Result<Text, Memory>
    ensures { IfOk result (λ text. text ≡ printed (ref_view datum.entry)) }
{
    let mut text = Text::new(alloc);
    match datum {
        DatumRef::Null => {}
        _ => show_datum(alloc, datum, &mut text)?,
    }
    Ok(text)
}

/// Appends a value as it stands inside others, where null is `<nil>`. Fails only if allocation fails.
pub fn show_datum(alloc: Global, datum: DatumRef<'_>, out: &mut Text) -> Result<(), Memory>
    ensures { OnOk result (out.new ≡ out.old ++ shown (ref_view datum.entry)) }
{
    match datum {
        DatumRef::List(values) => show_list(alloc, values, out),
        DatumRef::Dict(entries) => show_dict(alloc, entries, out),
        _ => show_single(alloc, datum, out),
    }
}

#[cycle(show)]
fn show(alloc: Global, datum: &Datum, out: &mut Text) -> Result<(), Memory>
    ensures { OnOk result (out.new ≡ out.old ++ shown (view datum.now)) }
{
    match datum {
        Datum::List(items) => show_list(alloc, items.as_slice(), out),
        Datum::Dict(entries) => show_dict(alloc, entries, out),
        _ => show_single(alloc, datum.as_ref(), out),
    }
}

// Appends a value that has no others in it; of one that has, nothing.
fn show_single(alloc: Global, datum: DatumRef<'_>, out: &mut Text) -> Result<(), Memory>
    ensures { OnOk result (out.new ≡ out.old ++ shown_single (ref_view datum.entry)) }
{
    match datum {
        DatumRef::Null => out.push_str("<nil>"),
        DatumRef::Bool(true) => out.push_str("true"),
        DatumRef::Bool(false) => out.push_str("false"),
        DatumRef::Int(number) => show_number(alloc, number, out),
        DatumRef::Text(text) => out.push_str(text),
        DatumRef::List(_) | DatumRef::Dict(_) => Ok(()),
    }
}

fn show_number(alloc: Global, number: i64, out: &mut Text) -> Result<(), Memory>
    ensures { OnOk result (out.new ≡ out.old ++ signed_decimal number) }
{
    let digits = format!(in alloc; "{number}")?;
    out.push_str(digits.as_str())
}

#[cycle(show)]
fn show_list(alloc: Global, values: &[Datum], out: &mut Text) -> Result<(), Memory>
    ensures { OnOk result (out.new ≡ out.old ++ shown (list (items_view values.now))) }
{
    out.push_str("[")?;
    let mut first = true;
    for value in values {
        if !first {
            out.push_str(" ")?;
        }
        first = false;
        show(alloc, value, out)?;
    }
    out.push_str("]")
}

#[cycle(show)]
fn show_dict(alloc: Global, entries: &Entries, out: &mut Text) -> Result<(), Memory>
    ensures { OnOk result (out.new ≡ out.old ++ shown (dict entries.now)) }
{
    out.push_str("map[")?;
    let mut first = true;
    for (key, value) in entries.as_slice() {
        if !first {
            out.push_str(" ")?;
        }
        first = false;
        out.push_str(key.as_str())?;
        out.push_str(":")?;
        show(alloc, value, out)?;
    }
    out.push_str("]")
}
