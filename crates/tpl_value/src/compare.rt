ghost use Rattle.std.specs.Prelude.{◌≡◌};
ghost use Rattle.page_datum.specs.View.{ref_view};
ghost use Rattle.tpl_value.specs.Comparing.{equals, is_less};

use page_datum::{DatumRef, FaultKind};
use std::cmp::Ordering;

/// Whether two values are equal. Null is equal to null alone; truth values, whole numbers and texts are compared with their
/// own kind. The error is NotComparable: a list or a dictionary, or two kinds of which neither is null. Does not allocate.
pub fn equal(a: DatumRef<'_>, b: DatumRef<'_>) -> Result<bool, FaultKind>
    ensures { result ≡ equals (ref_view a.entry) (ref_view b.entry) }
{
    match (a, b) {
        (DatumRef::List(_) | DatumRef::Dict(_), _) => Err(FaultKind::NotComparable),
        (_, DatumRef::List(_) | DatumRef::Dict(_)) => Err(FaultKind::NotComparable),
        (DatumRef::Null, DatumRef::Null) => Ok(true),
        (DatumRef::Null, _) => Ok(false),
        (_, DatumRef::Null) => Ok(false),
        (DatumRef::Bool(a), DatumRef::Bool(b)) => Ok(a == b),
        (DatumRef::Int(a), DatumRef::Int(b)) => Ok(a == b),
        (DatumRef::Text(a), DatumRef::Text(b)) => Ok(a == b),
        (_, _) => Err(FaultKind::NotComparable),
    }
}

/// Whether a value is less than another: of two whole numbers, or of two texts in the order of their bytes. The error is
/// NotComparable: any other two values. Does not allocate.
pub fn less(a: DatumRef<'_>, b: DatumRef<'_>) -> Result<bool, FaultKind>
    ensures { result ≡ is_less (ref_view a.entry) (ref_view b.entry) }
{
    match (a, b) {
        (DatumRef::Int(a), DatumRef::Int(b)) => Ok(a < b),
        (DatumRef::Text(a), DatumRef::Text(b)) => Ok(a.cmp(b) == Ordering::Less),
        (_, _) => Err(FaultKind::NotComparable),
    }
}
