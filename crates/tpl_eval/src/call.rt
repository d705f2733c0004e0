ghost use Rattle.std.specs.Prelude.{◌≡◌};
ghost use Rattle.tpl_eval.specs.Values.{OutcomeAnswers, FreeAnswers, PaidAnswers, value_view, values_view};
ghost use Rattle.tpl_eval.specs.Functions as spec;

use crate::compare::{eq, ge, gt, le, len, lt, ne, not};
use crate::make::{index_all, print_all, printf_all, slice_all};
use crate::steps::counted;
use crate::value::Value;
use page_datum::{DatumRef, FaultKind, ValueStop};
use std::alloc::Global;
use tpl_symbol::Func;

/// What a function gives for its arguments, and the steps up to there: one for each byte of a text that is made. `and` and `or` are
/// not called so, since they do not evaluate all of their arguments, and `html` and `urlquery` have another number of arguments than one
/// where they are.
pub(crate) fn called<'d>(
    alloc: Global,
    func: Func,
    args: Vec<Value<'d>>,
    steps: u64,
) -> Result<(Value<'d>, u64), ValueStop>
    ensures { let called = spec.function_called func (values_view args.entry.items) steps
        in OutcomeAnswers called result }
{
    match func {
        Func::Not => free(not(args.as_slice()), steps),
        Func::Eq => free(eq(args.as_slice()), steps),
        Func::Ne => free(ne(args.as_slice()), steps),
        Func::Lt => free(lt(args.as_slice()), steps),
        Func::Le => free(le(args.as_slice()), steps),
        Func::Gt => free(gt(args.as_slice()), steps),
        Func::Ge => free(ge(args.as_slice()), steps),
        Func::Len => free(len(args.as_slice()), steps),
        Func::Index => match index_all(args) {
            Ok(value) => Ok((value, steps)),
            Err(kind) => Err(ValueStop::Fault(kind)),
        },
        Func::Slice => paid(slice_all(alloc, args.as_slice()), steps),
        Func::Print => paid(print_all(alloc, args.as_slice(), false), steps),
        Func::Println => paid(print_all(alloc, args.as_slice(), true), steps),
        Func::Printf => paid(printf_all(alloc, args.as_slice()), steps),
        Func::And | Func::Or | Func::Html | Func::Urlquery => {
            Err(ValueStop::Fault(FaultKind::WrongCount))
        }
    }
}

// A value that costs no step more.
fn free<'d>(
    answer: Result<DatumRef<'d>, FaultKind>,
    steps: u64,
) -> Result<(Value<'d>, u64), ValueStop>
    ensures { FreeAnswers answer.entry steps result }
{
    match answer {
        Ok(datum) => Ok((Value::Lent(datum), steps)),
        Err(kind) => Err(ValueStop::Fault(kind)),
    }
}

// A value, with a step for each byte of it where it is a text.
fn paid<'d>(answer: Result<Value<'d>, ValueStop>, steps: u64) -> Result<(Value<'d>, u64), ValueStop>
    ensures { PaidAnswers answer.entry steps result }
{
    match answer {
        Ok(value) => {
            let more = bytes_made(&value);
            match counted(more, steps) {
                Ok(steps) => Ok((value, steps)),
                Err(kind) => Err(ValueStop::Fault(kind)),
            }
        }
        Err(stop) => Err(stop),
    }
}

// The bytes of a text; none of another value.
fn bytes_made(value: &Value<'_>) -> u64
    ensures { result ≡ spec.bytes_made (value_view value.now) }
{
    match value.datum() {
        DatumRef::Text(text) => text.len() as u64,
        _ => 0,
    }
}
