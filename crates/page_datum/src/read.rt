ghost use Rattle.std.specs.Prelude.{◌≡◌, IfOk};
ghost use Rattle.page_datum.specs.Reading.{ReadDatumAnswers};
ghost use Rattle.page_datum.specs.Reading as spec;

use crate::datum::Datum;
use crate::depth::is_too_deep;
use crate::refused::DataRefused;
use crate::take::take;
use page_io::{Memory, Stop, Text};
use serde_json::Value;
use std::alloc::Global;

/// The most bytes that data may have.
pub const MAX_LENGTH: usize = 8_388_608;

/// The datum that a JSON text (RFC 8259) stands for. Its numbers have to be whole numbers of `i64`,
/// written without a point and without an exponent. Of repeated keys the last one stands. Each
/// refusal but out of memory comes exactly where it says, in the order of `DataRefused`.
pub fn read_datum(alloc: Global, bytes: &[u8]) -> Result<Datum, DataRefused>
    ensures { ReadDatumAnswers bytes.now result }
{
    if bytes.len() > MAX_LENGTH {
        return Err(DataRefused::TooLong(bytes.len() as u64));
    }
    if is_too_deep(bytes) {
        return Err(DataRefused::TooDeep);
    }
    let value = match Value::from_slice(alloc, bytes) {
        Ok(value) => value,
        Err(error) if error.is_memory() => return Err(DataRefused::Memory),
        Err(_) => return Err(DataRefused::NotJson),
    };
    match take(alloc, value) {
        Ok(datum) => Ok(datum),
        Err(Stop::Cause(path)) => match shown_path(alloc, path) {
            Ok(shown) => Err(DataRefused::NotWhole(shown)),
            Err(Memory) => Err(DataRefused::Memory),
        },
        Err(Stop::Memory) => Err(DataRefused::Memory),
    }
}

// A path as it is shown: the root is a dot.
fn shown_path(alloc: Global, path: Text) -> Result<Text, Memory>
    ensures { IfOk result (λ shown. shown ≡ spec.shown_path path) }
{
    if path.is_empty() {
        return Text::copy_of(alloc, ".");
    }
    Ok(path)
}
