ghost use Rattle.std.specs.Prelude.{◌≡◌};
ghost use Rattle.page_datum.specs.View.{ref_view};
ghost use Rattle.tpl_eval.specs.Functions.{not_of, len_of, eq_of, ne_of, lt_of, le_of, gt_of};
ghost use Rattle.tpl_eval.specs.Functions.{ge_of};
ghost use Rattle.tpl_eval.specs.Functions.{one_of, two_of};
ghost use Rattle.tpl_eval.specs.Values.{OneAnswers, TwoAnswers, FunctionAnswers, values_view};
ghost use Rattle.tpl_eval.specs.Functions as spec;

use crate::value::Value;
use page_datum::{DatumRef, FaultKind};
use tpl_value::{equal, length, less, truth};

// Functions that give a truth value or a number for their arguments. Each answers WrongCount for another number of them, and none
// takes memory.

// `not x`
pub(crate) fn not(args: &[Value<'_>]) -> Result<DatumRef<'static>, FaultKind>
    ensures { FunctionAnswers (not_of (values_view args.now)) result }
{
    match one(args) {
        Ok(x) => Ok(DatumRef::Bool(!truth(x))),
        Err(kind) => Err(kind),
    }
}

// `len x`
pub(crate) fn len(args: &[Value<'_>]) -> Result<DatumRef<'static>, FaultKind>
    ensures { FunctionAnswers (len_of (values_view args.now)) result }
{
    match one(args) {
        Ok(x) => match length(x) {
            Ok(length) => Ok(DatumRef::Int(length)),
            Err(kind) => Err(kind),
        },
        Err(kind) => Err(kind),
    }
}

// `eq x y ..`
pub(crate) fn eq(args: &[Value<'_>]) -> Result<DatumRef<'static>, FaultKind>
    ensures { FunctionAnswers (eq_of (values_view args.now)) result }
{
    if args.len() < 2 {
        return Err(FaultKind::WrongCount);
    }
    as_truth(equals_one(args[0].datum(), &args[1..]))
}

// `ne x y`
pub(crate) fn ne(args: &[Value<'_>]) -> Result<DatumRef<'static>, FaultKind>
    ensures { FunctionAnswers (ne_of (values_view args.now)) result }
{
    match two(args) {
        Ok((x, y)) => as_opposite(equal(x, y)),
        Err(kind) => Err(kind),
    }
}

// `lt x y`
pub(crate) fn lt(args: &[Value<'_>]) -> Result<DatumRef<'static>, FaultKind>
    ensures { FunctionAnswers (lt_of (values_view args.now)) result }
{
    match two(args) {
        Ok((x, y)) => as_truth(less(x, y)),
        Err(kind) => Err(kind),
    }
}

// `le x y`
pub(crate) fn le(args: &[Value<'_>]) -> Result<DatumRef<'static>, FaultKind>
    ensures { FunctionAnswers (le_of (values_view args.now)) result }
{
    match two(args) {
        Ok((x, y)) => as_opposite(less(y, x)),
        Err(kind) => Err(kind),
    }
}

// `gt x y`
pub(crate) fn gt(args: &[Value<'_>]) -> Result<DatumRef<'static>, FaultKind>
    ensures { FunctionAnswers (gt_of (values_view args.now)) result }
{
    match two(args) {
        Ok((x, y)) => as_truth(less(y, x)),
        Err(kind) => Err(kind),
    }
}

// `ge x y`
pub(crate) fn ge(args: &[Value<'_>]) -> Result<DatumRef<'static>, FaultKind>
    ensures { FunctionAnswers (ge_of (values_view args.now)) result }
{
    match two(args) {
        Ok((x, y)) => as_opposite(less(x, y)),
        Err(kind) => Err(kind),
    }
}

// Exactly one argument.
fn one<'a>(args: &'a [Value<'_>]) -> Result<DatumRef<'a>, FaultKind>
    ensures { OneAnswers (one_of (values_view args.now)) result }
{
    if args.len() != 1 {
        return Err(FaultKind::WrongCount);
    }
    Ok(args[0].datum())
}

// Exactly two arguments.
fn two<'a>(args: &'a [Value<'_>]) -> Result<(DatumRef<'a>, DatumRef<'a>), FaultKind>
    ensures { TwoAnswers (two_of (values_view args.now)) result }
{
    if args.len() != 2 {
        return Err(FaultKind::WrongCount);
    }
    Ok((args[0].datum(), args[1].datum()))
}

// Whether a value equals one of others, which are compared in their order up to the first that is equal.
fn equals_one(x: DatumRef<'_>, others: &[Value<'_>]) -> Result<bool, FaultKind>
    ensures { result ≡ spec.equals_one (ref_view x.entry) (values_view others.now) }
{
    for other in others {
        match equal(x, other.datum()) {
            Ok(true) => return Ok(true),
            Ok(false) => {}
            Err(kind) => return Err(kind),
        }
    }
    Ok(false)
}

fn as_truth(answer: Result<bool, FaultKind>) -> Result<DatumRef<'static>, FaultKind>
    ensures { FunctionAnswers (spec.as_truth answer) result }
{
    match answer {
        Ok(truth) => Ok(DatumRef::Bool(truth)),
        Err(kind) => Err(kind),
    }
}

fn as_opposite(answer: Result<bool, FaultKind>) -> Result<DatumRef<'static>, FaultKind>
    ensures { FunctionAnswers (spec.as_opposite answer) result }
{
    match answer {
        Ok(truth) => Ok(DatumRef::Bool(!truth)),
        Err(kind) => Err(kind),
    }
}
