ghost use Rattle.std.specs.Prelude.{Ok, option_map};
ghost use Rattle.page_datum.specs.View.{items_view, ref_view, view};
ghost use Rattle.tpl_value.specs.Picking.{PickAnswers, field_of, index_of};
ghost use Rattle.tpl_value.specs.Picking.{item_of};
ghost use Rattle.tpl_value.specs.Picking as spec;

use page_datum::{Datum, DatumRef, FaultKind};

/// A value that was found in another, or nothing, which stands for null.
#[derive(Clone, Copy, Debug, Drop)]
pub enum Picked<'a> {
    Value(&'a Datum),
    Nothing,
}

/// The value of a field: that of its key in a dictionary, and nothing where the dictionary lacks it. The errors are NilField, a
/// field of null, and NoField, a field of anything else. Does not allocate.
pub fn field<'a>(datum: DatumRef<'a>, name: &str) -> Result<Picked<'a>, FaultKind>
    ensures { PickAnswers (field_of name.now (ref_view datum.entry)) result }
{
    match datum {
        DatumRef::Dict(entries) => Ok(found(entries.get(name))),
        DatumRef::Null => Err(FaultKind::NilField),
        _ => Err(FaultKind::NoField),
    }
}

/// The part of a value at a key: an item of a list at a whole number, counted from 0, or the value of a dictionary at a text,
/// and nothing where the dictionary lacks it. The errors are IndexRange, no such item, KeyKind, another kind of key, and
/// NotIndexable, any other value. Does not allocate.
pub fn index<'a>(datum: DatumRef<'a>, key: DatumRef<'_>) -> Result<Picked<'a>, FaultKind>
    ensures { PickAnswers (index_of (ref_view datum.entry) (ref_view key.entry)) result }
{
    match (datum, key) {
        (DatumRef::List(values), DatumRef::Int(at)) => item_at(values, at),
        (DatumRef::Dict(entries), DatumRef::Text(name)) => Ok(found(entries.get(name))),
        (DatumRef::List(_) | DatumRef::Dict(_), _) => Err(FaultKind::KeyKind),
        (_, _) => Err(FaultKind::NotIndexable),
    }
}

fn found(value: Option<&Datum>) -> Picked<'_>
    ensures { PickAnswers (Ok (option_map (λ d. view d.now) value.entry)) (Ok result) }
{
    match value {
        Some(value) => Picked::Value(value),
        None => Picked::Nothing,
    }
}

fn item_at(items: &[Datum], at: i64) -> Result<Picked<'_>, FaultKind>
    ensures { PickAnswers (item_of at (items_view items.now)) result }
{
    if at < 0 {
        return Err(FaultKind::IndexRange);
    }
    numbered_item(items, at.unsigned_abs() as usize)
}

fn numbered_item(items: &[Datum], number: usize) -> Result<Picked<'_>, FaultKind>
    ensures { PickAnswers (spec.item_at number (items_view items.now)) result }
{
    match items.get(number) {
        Some(item) => Ok(Picked::Value(item)),
        None => Err(FaultKind::IndexRange),
    }
}
