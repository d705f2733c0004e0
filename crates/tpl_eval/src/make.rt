ghost use Rattle.std.specs.Prelude.{◌≡◌, IfOk};
ghost use Rattle.page_datum.specs.View.{ref_view};
ghost use Rattle.tpl_format.specs.Answers.{datas};
ghost use Rattle.tpl_format.specs.Formats.{formatted_args};
ghost use Rattle.tpl_format.specs.Prints.{printed_text};
ghost use Rattle.tpl_eval.specs.Functions.{format_made, made, position_of, sliceable_length_of};
ghost use Rattle.tpl_eval.specs.Values.{FoundAnswers, MadeAnswers, value_view, values_view};
ghost use Rattle.tpl_value.specs.Slicing.{slice_of};
ghost use Rattle.tpl_eval.specs.Functions as spec;

use crate::value::{Selector, Value, part_of};
use page_datum::{DatumRef, FaultKind, ValueStop};
use page_io::{Memory, Text};
use std::alloc::Global;
use tpl_format::{print, printf};
use tpl_value::{length, slice, slice_text};

// Functions that give a part of their arguments, or a text that is made of them.

// `index x k ..`: the part at the first key, of that the part at the second one, and so on.
pub(crate) fn index_all<'d>(args: Vec<Value<'d>>) -> Result<Value<'d>, FaultKind>
    ensures { FoundAnswers (spec.index_all (values_view args.entry.items)) result }
{
    let mut part = None;
    for arg in args {
        part = match part {
            None => Some(arg),
            Some(value) => match part_of(value, Selector::Key(arg.datum())) {
                Ok(value) => Some(value),
                Err(kind) => return Err(kind),
            },
        };
    }
    match part {
        Some(value) => Ok(value),
        None => Err(FaultKind::WrongCount),
    }
}

// `slice x`, `slice x i`, `slice x i j`
pub(crate) fn slice_all<'d>(alloc: Global, args: &[Value<'d>]) -> Result<Value<'d>, ValueStop>
    ensures { MadeAnswers (spec.slice_all (values_view args.now)) result }
{
    match args {
        [x] => match sliceable_length(x.datum()) {
            Ok(end) => slice_value(alloc, x, 0, end),
            Err(kind) => Err(ValueStop::Fault(kind)),
        },
        [x, i] => match (sliceable_length(x.datum()), position(i.datum())) {
            (Err(kind), _) => Err(ValueStop::Fault(kind)),
            (_, Err(kind)) => Err(ValueStop::Fault(kind)),
            (Ok(end), Ok(from)) => slice_value(alloc, x, from, end),
        },
        [x, i, j] => match (
            sliceable_length(x.datum()),
            position(i.datum()),
            position(j.datum()),
        ) {
            (Err(kind), _, _) => Err(ValueStop::Fault(kind)),
            (_, Err(kind), _) => Err(ValueStop::Fault(kind)),
            (_, _, Err(kind)) => Err(ValueStop::Fault(kind)),
            (Ok(_), Ok(from), Ok(to)) => slice_value(alloc, x, from, to),
        },
        [] => Err(ValueStop::Fault(FaultKind::WrongCount)),
        [_, _, _, _, ..] => Err(ValueStop::Fault(FaultKind::WrongCount)),
    }
}

// The part of a value between two places: of what is lent it is lent too, and of a text that was made it is a text of its own.
fn slice_value<'d>(
    alloc: Global,
    value: &Value<'d>,
    from: i64,
    to: i64,
) -> Result<Value<'d>, ValueStop>
    ensures { MadeAnswers (slice_of (value_view value.now) from to) result }
{
    match value {
        Value::Lent(datum) => match slice(*datum, from, to) {
            Ok(part) => Ok(Value::Lent(part)),
            Err(kind) => Err(ValueStop::Fault(kind)),
        },
        Value::Made(text) => match slice_text(text.as_str(), from, to) {
            Ok(part) => Ok(Value::made(alloc, Text::copy_of(alloc, part)?)?),
            Err(kind) => Err(ValueStop::Fault(kind)),
        },
    }
}

// The length of what has parts between positions: a text or a list.
fn sliceable_length(datum: DatumRef<'_>) -> Result<i64, FaultKind>
    ensures { result ≡ sliceable_length_of (ref_view datum.entry) }
{
    match datum {
        DatumRef::Text(_) | DatumRef::List(_) => length(datum),
        _ => Err(FaultKind::NotIndexable),
    }
}

// A position in a value, which is a whole number.
fn position(key: DatumRef<'_>) -> Result<i64, FaultKind>
    ensures { result ≡ position_of (ref_view key.entry) }
{
    match key {
        DatumRef::Int(position) => Ok(position),
        _ => Err(FaultKind::KeyKind),
    }
}

// `print ..`, or `println ..` where a line is wanted
pub(crate) fn print_all<'d>(
    alloc: Global,
    args: &[Value<'_>],
    line: bool,
) -> Result<Value<'d>, ValueStop>
    ensures { MadeAnswers (made (printed_text line (values_view args.now))) result }
{
    let args = datums(alloc, args)?;
    match print(alloc, args.as_slice(), line) {
        Ok(text) => Ok(Value::made(alloc, text)?),
        Err(stop) => Err(stop),
    }
}

// `printf format ..`
pub(crate) fn printf_all<'d>(alloc: Global, args: &[Value<'_>]) -> Result<Value<'d>, ValueStop>
    ensures { MadeAnswers (format_made (formatted_args (values_view args.now))) result }
{
    let args = datums(alloc, args)?;
    match printf(alloc, args.as_slice()) {
        Ok(text) => Ok(Value::made(alloc, text)?),
        Err(stop) => Err(stop),
    }
}

// Values, lent.
fn datums<'a>(alloc: Global, values: &'a [Value<'_>]) -> Result<Vec<DatumRef<'a>>, Memory>
    ensures { IfOk result (λ lent. datas lent.items ≡ values_view values.now) }
{
    let mut lent = Vec::with_capacity(alloc, values.len())?;
    for value in values {
        lent.push(value.datum())?;
    }
    Ok(lent)
}
