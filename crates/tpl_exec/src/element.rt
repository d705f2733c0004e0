ghost use Rattle.std.specs.Prelude.{◌≡◌, ◌<◌, ◌^◌, IfSome};
ghost use Rattle.page_datum.specs.View.{items_view, ref_view};
ghost use Rattle.tpl_exec.specs.Elements.{elements_of, some_elements, IsElement};
ghost use Rattle.tpl_exec.specs.Meaning.{elements, keyed, numbered_elements};

use page_datum::{Datum, DatumRef, Entries};

/// An element of what a range goes over, with its index: its number in a list, or its key in a dictionary.
#[derive(Clone, Copy, Drop)]
pub(crate) struct RangeElement<'a> {
    pub(crate) index: DatumRef<'a>,
    pub(crate) value: DatumRef<'a>,
}

/// The element with a number, or none where there are no more.
pub(crate) fn element_at<'a>(source: DatumRef<'a>, at: usize) -> Option<RangeElement<'a>>
    ensures element { IsElement result at (elements_of (ref_view source.entry)) }
    ensures bound { IfSome result (λ _. at < 2 ^ 63) }
{
    match source {
        DatumRef::List(values) => item_at(values, at),
        DatumRef::Dict(entries) => entry_at(entries, at),
        _ => None,
    }
}

// The value of a list with a number.
fn item_at<'a>(values: &'a [Datum], at: usize) -> Option<RangeElement<'a>>
    ensures element { IsElement result at (numbered_elements 0 (items_view values.now)) }
    ensures bound { IfSome result (λ _. at < 2 ^ 63) }
{
    match values.get(at) {
        Some(value) => Some(RangeElement {
            index: DatumRef::Int(at as i64),
            value: value.as_ref(),
        }),
        None => None,
    }
}

// The entry of a dictionary with a number.
fn entry_at<'a>(entries: &'a Entries, at: usize) -> Option<RangeElement<'a>>
    ensures element { IsElement result at (keyed entries.now) }
    ensures bound { IfSome result (λ _. at < 2 ^ 63) }
{
    if at >= entries.len() {
        return None;
    }
    match entries.as_slice().get(at) {
        Some((key, value)) => Some(RangeElement {
            index: DatumRef::Text(key.as_str()),
            value: value.as_ref(),
        }),
        None => None,
    }
}

/// Whether a range has a meaning for a value, and whether there are elements.
pub(crate) fn has_elements(datum: DatumRef<'_>) -> Option<bool>
    ensures { result ≡ some_elements (elements (ref_view datum.entry)) }
{
    match datum {
        DatumRef::Null => Some(false),
        DatumRef::List(values) => Some(values.len() > 0),
        DatumRef::Dict(entries) => Some(entries.len() > 0),
        _ => None,
    }
}
