ghost use Rattle.std.specs.Prelude.{◌≡◌, ◌≤◌, OnOk, IsErrOf};
ghost use Rattle.std.specs.Io.KnownBytes.{IsAtEnd};
ghost use Rattle.page_io.specs.Causes.{Rose};
ghost use Rattle.page_tool.specs.Input.{ReadDataAnswers};

use crate::stop::CommandStop;
use page_datum::{DataRefused, Datum, MAX_LENGTH, read_datum};
use page_io::{IoStop, Source, read_up_to};
use std::alloc::Global;

/// The datum that an input is, read to its end.
pub fn read_data<I: Source>(alloc: Global, input: &mut I) -> Result<Datum, CommandStop>
    ensures data { ReadDataAnswers (I.left input.old) result }
    ensures end { OnOk result (IsAtEnd (I.left input.new)) }
    ensures later { I.faults input.old ≤ I.faults input.new }
    ensures read { IsErrOf result CommandStop.Read
        → Rose (I.faults input.old) (I.faults input.new) }
{
    let bytes = match read_up_to(alloc, input, MAX_LENGTH) {
        Ok(bytes) => bytes,
        Err(IoStop::Failed) => return Err(CommandStop::Read),
        Err(IoStop::Memory) => return Err(CommandStop::Memory),
    };
    match read_datum(alloc, bytes.as_slice()) {
        Ok(datum) => Ok(datum),
        Err(DataRefused::Memory) => Err(CommandStop::Memory),
        Err(why) => Err(CommandStop::Data(why)),
    }
}
