ghost use Rattle.std.specs.Prelude.{◌≡◌, ◌++◌, ◌∷◌, [], IfOk, OnOk};
ghost use Rattle.page_datum.specs.View.{entries_view, view};
ghost use Rattle.page_http.specs.Forms.{form_data, form_pairs, pushed, text_of};

use form_urlencoded::{decode, raw_pairs};
use page_datum::{Datum, Entries};
use page_io::{Memory, Text};
use std::alloc::Global;

/// The datum of a form or a query (URL Standard, section 5.1): a dictionary of its pairs, with
/// texts for values; of a repeated name the last value stands. Every byte is read as something.
/// Fails only if allocation fails.
pub fn read_form(alloc: Global, form: &[u8]) -> Result<Datum, Memory>
    ensures { IfOk result (λ datum. view datum ≡ form_data form.now) }
{
    let pairs = read_pairs(alloc, form)?;
    Ok(Datum::Dict(Entries::from_pairs(alloc, pairs)?))
}

// The pairs in their order.
fn read_pairs(alloc: Global, form: &[u8]) -> Result<Vec<(Text, Datum)>, Memory>
    ensures { IfOk result (λ pairs. entries_view pairs.items ≡ form_pairs form.now) }
{
    let mut pairs = Vec::new(alloc);
    for (name, value) in raw_pairs(form) {
        push_pair(alloc, &mut pairs, name, value)?;
    }
    Ok(pairs)
}

fn push_pair(
    alloc: Global,
    pairs: &mut Vec<(Text, Datum)>,
    name: &[u8],
    value: &[u8],
) -> Result<(), Memory>
    ensures { OnOk result (pushed pairs.old.items pairs.new.items name.now value.now) }
{
    let name = read_text(alloc, name)?;
    let value = read_text(alloc, value)?;
    pairs.push((name, Datum::Text(value)))?;
    Ok(())
}

// The text that an encoded name or value stands for.
fn read_text(alloc: Global, encoded: &[u8]) -> Result<Text, Memory>
    ensures { IfOk result (λ text. text ≡ text_of encoded.now) }
{
    let decoded = decode(alloc, encoded)?;
    Ok(Text::from(decoded.into_owned(alloc)?))
}
