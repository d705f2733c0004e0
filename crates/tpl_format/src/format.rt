ghost use Rattle.std.specs.Prelude.{[]};
ghost use Rattle.tpl_format.specs.Answers.{ComputesFormat, PrintfAnswers, datas};
ghost use Rattle.tpl_format.specs.Formats.{formatted};
ghost use Rattle.tpl_format.specs.Making.{TextAnswers, outcome};

use crate::directive::{read_verb, split_at_verb};
use crate::limit::{add, is_long};
use crate::operand::direct;
use page_datum::{DatumRef, FaultKind, ValueStop};
use page_io::{Memory, Text};
use std::alloc::Global;

/// What `printf` makes of its arguments: the first is a text, the format, and each verb of it prints the next one of the operands
/// after it. (Go's `text/template`, "Functions", and package `fmt`, "Printing", in a profile.) A verb is `%`, flags, a width and
/// a letter:
///
/// - `%d` prints a whole number in decimal.
/// - `%x` prints a whole number in lower hex digits, or a text with two for each byte.
/// - `%s` prints a text.
/// - `%t` prints a truth value.
/// - `%v` prints anything as `print` does.
/// - `%%` prints `%`, and has no flags and no width.
///
/// A width is at most 1,000, and counts characters: spaces stand before what is shorter, or after it with the flag `-`. The flags
/// `0`, zeros after the sign in place of spaces, unless `-` stands too, and `+`, a sign before numbers that are not negative, fit
/// whole numbers under `d` and `x` alone. Flags stand in any order, each at most once.
///
/// The errors are BadFormat, where there is no format, it has what is no verb, or its verbs do not fit the operands in kind or in
/// number; TooLong, where the text would have more than 16,777,216 bytes; and out of memory. BadFormat comes before TooLong.
pub fn printf(alloc: Global, args: &[DatumRef<'_>]) -> Result<Text, ValueStop>
    ensures answers { PrintfAnswers (datas args.now) result }
    ensures computed { ComputesFormat (datas args.now) result }
{
    formatted_args(alloc, args)
}

// The text of a format and its operands.
fn formatted_args(alloc: Global, args: &[DatumRef<'_>]) -> Result<Text, ValueStop>
    ensures { ComputesFormat (datas args.now) result }
{
    let [first, operands @ ..] = args else {
        return Err(ValueStop::Fault(FaultKind::BadFormat));
    };
    match *first {
        DatumRef::Text(format) => write(alloc, format, operands),
        _ => Err(ValueStop::Fault(FaultKind::BadFormat)),
    }
}

// The text that a format makes of operands.
fn write(alloc: Global, format: &str, operands: &[DatumRef<'_>]) -> Result<Text, ValueStop>
    ensures { TextAnswers (outcome [] (formatted format.now (datas operands.now))) result }
{
    let mut out = Text::new(alloc);
    let mut rest = format;
    let mut used = 0;
    while let Some((plain, behind)) = split_at_verb(rest) {
        add(&mut out, plain)?;
        let Some((directive, after)) = read_verb(behind) else {
            return Err(ValueStop::Fault(FaultKind::BadFormat));
        };
        match direct(alloc, directive, operands, used) {
            Ok((text, next)) => {
                add(&mut out, text.as_str())?;
                used = next;
            }
            Err(stop) => return Err(stop),
        }
        rest = after;
    }
    add(&mut out, rest)?;
    if used < operands.len() {
        return Err(ValueStop::Fault(FaultKind::BadFormat));
    }
    if is_long(&out) {
        return Err(ValueStop::Fault(FaultKind::TooLong));
    }
    Ok(out)
}
