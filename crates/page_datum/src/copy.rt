ghost use Rattle.std.specs.Prelude.{◌≡◌, IfOk};
ghost use Rattle.page_datum.specs.View.{items_view, view};

use crate::datum::{Datum, Entries, Items};
use page_io::{Memory, Text};
use std::alloc::Global;

impl Datum {
    /// An equal datum. Fails only if allocation fails.
    pub fn copy(&self, alloc: Global) -> Result<Datum, Memory>
        ensures { IfOk result (λ copy. view copy ≡ view self.now) }
    {
        copy(alloc, self)
    }
}

#[cycle(copy)]
fn copy(alloc: Global, datum: &Datum) -> Result<Datum, Memory>
    ensures { IfOk result (λ copy. view copy ≡ view datum.now) }
{
    match datum {
        Datum::Null => Ok(Datum::Null),
        Datum::Bool(truth) => Ok(Datum::Bool(*truth)),
        Datum::Int(number) => Ok(Datum::Int(*number)),
        Datum::Text(text) => Ok(Datum::Text(Text::copy_of(alloc, text.as_str())?)),
        Datum::List(items) => Ok(Datum::List(copy_values(alloc, items.as_slice())?)),
        Datum::Dict(entries) => Ok(Datum::Dict(copy_entries(alloc, entries)?)),
    }
}

/// The list of equal values. Fails only if allocation fails.
#[cycle(copy)]
pub(crate) fn copy_values(alloc: Global, values: &[Datum]) -> Result<Items, Memory>
    ensures { IfOk result (λ copy. copy ≡ items_view values.now) }
{
    let mut copies = Vec::with_capacity(alloc, values.len())?;
    for value in values {
        copies.push(copy(alloc, value)?)?;
    }
    Ok(Items::from(copies))
}

/// Equal entries. Fails only if allocation fails.
#[cycle(copy)]
pub(crate) fn copy_entries(alloc: Global, entries: &Entries) -> Result<Entries, Memory>
    ensures { IfOk result (λ copy. copy ≡ entries.now) }
{
    let mut copies = Vec::with_capacity(alloc, entries.len())?;
    for (key, value) in entries.as_slice() {
        let key = Text::copy_of(alloc, key.as_str())?;
        copies.push((key, copy(alloc, value)?))?;
    }
    Ok(Entries::from_ascending(copies))
}
