ghost use Rattle.std.specs.Prelude.{◌≡◌, IfOk};
ghost use Rattle.page_datum.specs.View.{ref_view, view};

use crate::copy::{copy_entries, copy_values};
use crate::datum::{Datum, Entries};
use page_io::{Memory, Text};
use std::alloc::Global;

/// A value that is lent: a value of a `Datum`, a text, or values that follow one another in a list. Copying it copies no data.
/// Its meaning for contracts is `ref_view` of `specs/View.antt`.
#[derive(Clone, Copy, Debug, Drop)]
pub enum DatumRef<'d> {
    Null,
    Bool(bool),
    Int(i64),
    Text(&'d str),
    List(&'d [Datum]),
    Dict(&'d Entries),
}

impl Datum {
    /// The value, lent.
    pub fn as_ref(&self) -> DatumRef<'_>
        ensures { ref_view result ≡ view self.now }
    {
        match self {
            Datum::Null => DatumRef::Null,
            Datum::Bool(truth) => DatumRef::Bool(*truth),
            Datum::Int(number) => DatumRef::Int(*number),
            Datum::Text(text) => DatumRef::Text(text.as_str()),
            Datum::List(items) => DatumRef::List(items.as_slice()),
            Datum::Dict(entries) => DatumRef::Dict(entries),
        }
    }
}

impl<'d> DatumRef<'d> {
    /// The value as a datum of its own. Fails only if allocation fails.
    pub fn to_datum(self, alloc: Global) -> Result<Datum, Memory>
        ensures { IfOk result (λ datum. view datum ≡ ref_view self.entry) }
    {
        match self {
            DatumRef::Null => Ok(Datum::Null),
            DatumRef::Bool(truth) => Ok(Datum::Bool(truth)),
            DatumRef::Int(number) => Ok(Datum::Int(number)),
            DatumRef::Text(text) => Ok(Datum::Text(Text::copy_of(alloc, text)?)),
            DatumRef::List(values) => Ok(Datum::List(copy_values(alloc, values)?)),
            DatumRef::Dict(entries) => Ok(Datum::Dict(copy_entries(alloc, entries)?)),
        }
    }
}
