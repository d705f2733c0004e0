ghost use Rattle.std.specs.Prelude.{◌≡◌, pos};
ghost use Rattle.page_datum.specs.View.{items_view, ref_view};
ghost use Rattle.page_datum.specs.Data.{item_count};
ghost use Rattle.tpl_value.specs.Lengths.{length_of};

use page_datum::{Datum, DatumRef, FaultKind};

/// How long a value is: the number of a text's bytes, of a list's values, or of a dictionary's entries. The error is NoLength:
/// any other value. Does not allocate. (Go's `text/template`, "Functions", in a profile.)
pub fn length(datum: DatumRef<'_>) -> Result<i64, FaultKind>
    ensures { result ≡ length_of (ref_view datum.entry) }
{
    match datum {
        DatumRef::Text(text) => Ok(text.len() as i64),
        DatumRef::List(values) => Ok(count_of(values)),
        DatumRef::Dict(entries) => Ok(entries.len() as i64),
        _ => Err(FaultKind::NoLength),
    }
}

fn count_of(values: &[Datum]) -> i64
    ensures { result ≡ pos (item_count (items_view values.now)) }
{
    values.len() as i64
}
