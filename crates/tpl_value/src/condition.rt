ghost use Rattle.std.specs.Prelude.{◌≡◌};
ghost use Rattle.page_datum.specs.View.{ref_view};
ghost use Rattle.tpl_value.specs.Truth.{truth_of};

use page_datum::DatumRef;

/// Whether a condition with this value holds: null, false, 0 and what is empty are false, all else is true. Does not allocate.
/// (Go's `text/template`, "Actions".)
pub fn truth(datum: DatumRef<'_>) -> bool
    ensures { result ≡ truth_of (ref_view datum.entry) }
{
    match datum {
        DatumRef::Null => false,
        DatumRef::Bool(value) => value,
        DatumRef::Int(value) => value != 0,
        DatumRef::Text(text) => !text.is_empty(),
        DatumRef::List(values) => !values.is_empty(),
        DatumRef::Dict(entries) => !entries.as_slice().is_empty(),
    }
}
