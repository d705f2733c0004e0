ghost use Rattle.std.specs.Prelude.{◌≡◌, ◌≤◌, Ok, Some, length, pos};
ghost use Rattle.page_datum.specs.View.{items_view, ref_view};
ghost use Rattle.tpl_value.specs.Slicing.{CutAnswers, SliceAnswers, TextCutAnswers, bounds_of};
ghost use Rattle.tpl_value.specs.Slicing.{items_part, text_part};

use page_datum::{Datum, DatumRef, FaultKind};

/// The part of a value from one place to before another, lent: values of a list, or bytes of a text. The errors are SliceRange, two
/// places that are not in order from 0 to the length, or one that is in the middle of a character of the text, and NotIndexable, any
/// other value. Does not allocate. (Go's `text/template`, "Functions", in a profile.)
pub fn slice<'a>(datum: DatumRef<'a>, from: i64, to: i64) -> Result<DatumRef<'a>, FaultKind>
    ensures { SliceAnswers (ref_view datum.entry) from to result }
{
    match datum {
        DatumRef::Text(text) => match slice_text(text, from, to) {
            Ok(part) => Ok(DatumRef::Text(part)),
            Err(kind) => Err(kind),
        },
        DatumRef::List(values) => slice_values(values, from, to),
        _ => Err(FaultKind::NotIndexable),
    }
}

/// The same of a text.
pub fn slice_text<'a>(text: &'a str, from: i64, to: i64) -> Result<&'a str, FaultKind>
    ensures { TextCutAnswers (text_part text.now (bounds_of from to (length text.now))) result }
{
    match bounds(from, to, text.len()) {
        Some((from, to)) => cut_text(text, from, to),
        None => Err(FaultKind::SliceRange),
    }
}

// The part of a text between two places that are in order within it.
fn cut_text(text: &str, from: usize, to: usize) -> Result<&str, FaultKind>
    requires { (from ≤ to) × (to ≤ length text.now) }
    ensures { TextCutAnswers (text_part text.now (Some (from, to))) result }
{
    if text.is_char_boundary(from) && text.is_char_boundary(to) {
        return Ok(&text[from..to]);
    }
    Err(FaultKind::SliceRange)
}

fn slice_values<'a>(values: &'a [Datum], from: i64, to: i64) -> Result<DatumRef<'a>, FaultKind>
    ensures { let cut = bounds_of from to (length values.now) in
        CutAnswers (items_part (items_view values.now) cut) result }
{
    match bounds(from, to, values.len()) {
        Some((from, to)) => Ok(cut_values(values, from, to)),
        None => Err(FaultKind::SliceRange),
    }
}

// The values between two places that are in order within them.
fn cut_values<'a>(values: &'a [Datum], from: usize, to: usize) -> DatumRef<'a>
    requires { (from ≤ to) × (to ≤ length values.now) }
    ensures { CutAnswers (items_part (items_view values.now) (Some (from, to))) (Ok result) }
{
    DatumRef::List(&values[from..to])
}

// The two places as numbers, where they are in order within a length.
fn bounds(from: i64, to: i64, length: usize) -> Option<(usize, usize)>
    ensures { result ≡ bounds_of from to length }
{
    if from < 0 || to < 0 {
        return None;
    }
    ordered(
        from.unsigned_abs() as usize,
        to.unsigned_abs() as usize,
        length,
    )
}

fn ordered(from: usize, to: usize, length: usize) -> Option<(usize, usize)>
    ensures { result ≡ bounds_of (pos from) (pos to) length }
{
    if from <= to && to <= length {
        return Some((from, to));
    }
    None
}
