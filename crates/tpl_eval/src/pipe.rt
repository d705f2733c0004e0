ghost use Rattle.std.specs.Prelude.{◌≡◌, IfOk, IfSome, IsTrue};
ghost use Rattle.page_datum.specs.View.{ref_view};
ghost use Rattle.tpl_tree.specs.View.{operand_view, operands_view};
ghost use Rattle.tpl_eval.specs.Evaluating.{dot_alone, IsAlone};
ghost use Rattle.tpl_eval.specs.PipeCalls.{BaseAnswers, CommandAnswers, DecidingAnswers};
ghost use Rattle.tpl_eval.specs.PipeCalls.{DroppedAnswers, EvaluateAnswers, FunctionCallAnswers};
ghost use Rattle.tpl_eval.specs.PipeCalls.{IsPipedTo, OperandAnswers, OperandsAnswers};
ghost use Rattle.tpl_eval.specs.PipeCalls.{SingleAnswers};
ghost use Rattle.tpl_eval.specs.Scopes.{piped_view};
ghost use Rattle.tpl_eval.specs.Evaluating as spec;

use crate::call::called;
use crate::scope::Scope;
use crate::steps::counted;
use crate::value::{Value, fields_within};
use page_datum::{DatumRef, FaultKind, ValueStop};
use page_io::Memory;
use std::alloc::Global;
use tpl_symbol::Func;
use tpl_tree::{Base, Command, Operand, Operands, Pipe};
use tpl_value::truth;

/// What a pipe gives, and the steps up to there: one for each command, and one for each byte of a text that a
/// function makes. A `html` or `urlquery` with exactly one argument gives that argument: `html .a` is the one step of
/// `.a`, which stands in its place, and in `.a | html` it costs none. So with the step of its node `{{html .a}}` is two
/// steps, as `{{.a}}` and `{{.a | html}}` are. The errors are the faults of its functions and fields, Budget, more than
/// `MAX_STEPS` steps, and out of memory. (Go's `text/template`, "Pipelines", in a profile.)
pub fn evaluate<'d, 'v>(
    alloc: Global,
    scope: Scope<'d, 'v>,
    pipe: &'d Pipe,
    steps: u64,
) -> Result<(Value<'d>, u64), ValueStop>
    ensures { EvaluateAnswers scope.entry pipe.now steps result }
{
    match only_operand(pipe) {
        Some(operand) => single_value(alloc, scope, operand, steps),
        None => pipe_value(alloc, scope, pipe, steps),
    }
}

// The operand of a pipe that is one operand and nothing else.
fn only_operand(pipe: &Pipe) -> Option<&Operand>
    ensures { IfSome result (λ operand. IsAlone (operand_view operand.now) pipe.now.commands) }
{
    let commands = pipe.commands.as_slice();
    if commands.len() != 1 {
        return None;
    }
    match &commands[0] {
        Command::Single(operand) => Some(operand),
        Command::Call(_, _) => None,
    }
}

/// Whether a pipe is dot alone. There may be others that give dot.
pub fn is_dot(pipe: &Pipe) -> bool
    ensures { IsTrue result → IsAlone dot_alone pipe.now.commands }
{
    let operand = match only_operand(pipe) {
        Some(operand) => operand,
        None => return false,
    };
    if operand.fields.as_slice().len() > 0 {
        return false;
    }
    match &operand.base {
        Base::Dot => true,
        _ => false,
    }
}

#[cycle(evaluate)]
fn pipe_value<'d, 'v>(
    alloc: Global,
    scope: Scope<'d, 'v>,
    pipe: &'d Pipe,
    steps: u64,
) -> Result<(Value<'d>, u64), ValueStop>
    ensures { EvaluateAnswers scope.entry pipe.now steps result }
{
    let mut piped = None;
    let mut steps = steps;
    for command in pipe.commands.as_slice() {
        match command_value(alloc, scope, command, piped, steps) {
            Ok((value, now)) => {
                piped = Some(value);
                steps = now;
            }
            Err(stop) => return Err(stop),
        }
    }
    match piped {
        Some(value) => Ok((value, steps)),
        None => Ok((Value::Lent(DatumRef::Null), steps)),
    }
}

// A command, which is a step; an escaper with exactly one argument is dropped.
#[cycle(evaluate)]
fn command_value<'d, 'v>(
    alloc: Global,
    scope: Scope<'d, 'v>,
    command: &'d Command,
    piped: Option<Value<'d>>,
    steps: u64,
) -> Result<(Value<'d>, u64), ValueStop>
    ensures { CommandAnswers scope.entry command.now piped.entry steps result }
{
    match command {
        Command::Single(operand) => single_value(alloc, scope, operand, steps),
        Command::Call(func, operands) => {
            if is_escaper(*func) && has_one(operands.as_slice(), &piped) {
                return dropped_value(alloc, scope, operands, piped, steps);
            }
            match counted(1, steps) {
                Ok(steps) => call_value(alloc, scope, *func, operands, piped, steps),
                Err(kind) => Err(ValueStop::Fault(kind)),
            }
        }
    }
}

// An operand as a command, which is a step.
#[cycle(evaluate)]
fn single_value<'d, 'v>(
    alloc: Global,
    scope: Scope<'d, 'v>,
    operand: &'d Operand,
    steps: u64,
) -> Result<(Value<'d>, u64), ValueStop>
    ensures { SingleAnswers scope.entry operand.now steps result }
{
    match counted(1, steps) {
        Ok(steps) => operand_value(alloc, scope, operand, steps),
        Err(kind) => Err(ValueStop::Fault(kind)),
    }
}

// An escaper is dropped: its argument stands in its place, an operand as a command.
#[cycle(evaluate)]
fn dropped_value<'d, 'v>(
    alloc: Global,
    scope: Scope<'d, 'v>,
    operands: &'d Operands,
    piped: Option<Value<'d>>,
    steps: u64,
) -> Result<(Value<'d>, u64), ValueStop>
    ensures { DroppedAnswers scope.entry operands.now piped.entry steps result }
{
    match (operands.as_slice(), piped) {
        ([operand, ..], _) => single_value(alloc, scope, operand, steps),
        ([], Some(value)) => Ok((value, steps)),
        ([], None) => Err(ValueStop::Fault(FaultKind::WrongCount)),
    }
}

// A function with its arguments, from left to right.
#[cycle(evaluate)]
fn call_value<'d, 'v>(
    alloc: Global,
    scope: Scope<'d, 'v>,
    func: Func,
    operands: &'d Operands,
    piped: Option<Value<'d>>,
    steps: u64,
) -> Result<(Value<'d>, u64), ValueStop>
    ensures { FunctionCallAnswers scope.entry func operands.now piped.entry steps result }
{
    if is_lazy(func) {
        return deciding_value(alloc, scope, func, operands, piped, steps);
    }
    let (args, steps) = match operand_values(alloc, scope, operands, steps) {
        Ok(found) => found,
        Err(stop) => return Err(stop),
    };
    let args = with_piped(args, piped)?;
    called(alloc, func, args, steps)
}

// The first argument that decides, or the last one.
#[cycle(evaluate)]
fn deciding_value<'d, 'v>(
    alloc: Global,
    scope: Scope<'d, 'v>,
    func: Func,
    operands: &'d Operands,
    piped: Option<Value<'d>>,
    steps: u64,
) -> Result<(Value<'d>, u64), ValueStop>
    ensures { DecidingAnswers scope.entry func operands.now piped.entry steps result }
{
    let mut last = None;
    let mut steps = steps;
    for operand in operands.as_slice() {
        match operand_value(alloc, scope, operand, steps) {
            Ok((value, now)) => {
                if decides(func, value.datum()) {
                    return Ok((value, now));
                }
                last = Some(value);
                steps = now;
            }
            Err(stop) => return Err(stop),
        }
    }
    if let Some(value) = piped {
        return Ok((value, steps));
    }
    match last {
        Some(value) => Ok((value, steps)),
        None => Err(ValueStop::Fault(FaultKind::WrongCount)),
    }
}

#[cycle(evaluate)]
fn operand_values<'d, 'v>(
    alloc: Global,
    scope: Scope<'d, 'v>,
    operands: &'d Operands,
    steps: u64,
) -> Result<(Vec<Value<'d>>, u64), ValueStop>
    ensures { OperandsAnswers scope.entry operands.now steps result }
{
    let mut values = Vec::new(alloc);
    let mut steps = steps;
    for operand in operands.as_slice() {
        match operand_value(alloc, scope, operand, steps) {
            Ok((value, now)) => {
                values.push(value)?;
                steps = now;
            }
            Err(stop) => return Err(stop),
        }
    }
    Ok((values, steps))
}

// A base, and fields within it.
#[cycle(evaluate)]
fn operand_value<'d, 'v>(
    alloc: Global,
    scope: Scope<'d, 'v>,
    operand: &'d Operand,
    steps: u64,
) -> Result<(Value<'d>, u64), ValueStop>
    ensures { OperandAnswers scope.entry operand.now steps result }
{
    match base_value(alloc, scope, &operand.base, steps) {
        Ok((value, steps)) => match fields_within(value, &operand.fields) {
            Ok(value) => Ok((value, steps)),
            Err(kind) => Err(ValueStop::Fault(kind)),
        },
        Err(stop) => Err(stop),
    }
}

#[cycle(evaluate)]
fn base_value<'d, 'v>(
    alloc: Global,
    scope: Scope<'d, 'v>,
    base: &'d Base,
    steps: u64,
) -> Result<(Value<'d>, u64), ValueStop>
    ensures { BaseAnswers scope.entry base.now steps result }
{
    match base {
        Base::Str(text) => Ok((Value::Lent(DatumRef::Text(text.as_str())), steps)),
        Base::Number(number) => Ok((Value::Lent(DatumRef::Int(*number)), steps)),
        Base::Bool(truth) => Ok((Value::Lent(DatumRef::Bool(*truth)), steps)),
        Base::Nil => Ok((Value::Lent(DatumRef::Null), steps)),
        Base::Dot => Ok((scope.dot.copy()?, steps)),
        Base::Variable(name) => Ok((scope.variables.value_of(name.as_str())?, steps)),
        Base::Paren(pipe) => pipe_value(alloc, scope, pipe, steps),
    }
}

// Arguments with the piped value as the last one.
fn with_piped<'d, 'v>(
    args: Vec<Value<'d>>,
    piped: Option<Value<'d>>,
) -> Result<Vec<Value<'d>>, Memory>
    ensures { IfOk result (λ all. IsPipedTo args.entry piped.entry all) }
{
    let mut args = args;
    match piped {
        Some(value) => {
            args.push(value)?;
            Ok(args)
        }
        None => Ok(args),
    }
}

// Whether there is exactly one argument, written or piped.
fn has_one(operands: &[Operand], piped: &Option<Value<'_>>) -> bool
    ensures { result ≡ spec.has_one_operand (operands_view operands.now) (piped_view piped.now) }
{
    match piped {
        Some(_) => operands.len() == 0,
        None => operands.len() == 1,
    }
}

// Whether a function is `html` or `urlquery`.
fn is_escaper(func: Func) -> bool
    ensures { result ≡ spec.is_escaper_call func }
{
    match func {
        Func::Html | Func::Urlquery => true,
        _ => false,
    }
}

// Whether a function does not evaluate all of its arguments.
fn is_lazy(func: Func) -> bool
    ensures { result ≡ spec.is_lazy func }
{
    match func {
        Func::And | Func::Or => true,
        _ => false,
    }
}

// Whether an argument decides: an empty one for `and`, one that is not for `or`.
fn decides(func: Func, datum: DatumRef<'_>) -> bool
    ensures { result ≡ spec.decides func (ref_view datum.entry) }
{
    match func {
        Func::And => !truth(datum),
        _ => truth(datum),
    }
}
