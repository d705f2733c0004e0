ghost use Rattle.std.specs.Prelude.{◌≡◌, IfOk, Some, drop};
ghost use Rattle.page_datum.specs.View.{ref_view};
ghost use Rattle.tpl_format.specs.Answers.{datas};
ghost use Rattle.tpl_format.specs.Making.{Directs, directed};
ghost use Rattle.tpl_format.specs.Operands.{hex_bytes};
ghost use Rattle.page_datum.specs.Printed as printed_spec;
ghost use Rattle.tpl_format.specs.Operands as spec;

use crate::directive::Directive;
use crate::fill::{fill, fill_ascii};
use crate::number::{decimal_text, hex_number};
use crate::verb::{Conversion, Verb};
use page_datum::{DatumRef, FaultKind, ValueStop, show_datum};
use page_io::{Memory, Text};
use std::alloc::Global;

/// What a verb prints where this many operands are used, and how many are used then. The errors are BadFormat, an operand that is
/// missing or does not fit, and out of memory.
pub(crate) fn direct(
    alloc: Global,
    directive: Directive,
    operands: &[DatumRef<'_>],
    used: usize,
) -> Result<(Text, usize), ValueStop>
    ensures { Directs (directed directive (datas (drop used operands.now))) operands.now result }
{
    match directive {
        Directive::Sign => Ok((Text::copy_of(alloc, "%")?, used)),
        Directive::Operand(verb, conversion) => match operands.get(used) {
            None => Err(ValueStop::Fault(FaultKind::BadFormat)),
            Some(operand) => match operand_text(alloc, verb, conversion, *operand) {
                Ok(Some(text)) => Ok((text, used + 1)),
                Ok(None) => Err(ValueStop::Fault(FaultKind::BadFormat)),
                Err(Memory) => Err(ValueStop::Memory),
            },
        },
    }
}

// What a verb prints of an operand, and nothing where the operand does not fit.
fn operand_text(
    alloc: Global,
    verb: Verb,
    conversion: Conversion,
    datum: DatumRef<'_>,
) -> Result<Option<Text>, Memory>
    ensures { IfOk result
        (λ text. text ≡ spec.operand_text verb conversion (ref_view datum.entry)) }
{
    match (conversion, datum) {
        (Conversion::Decimal, DatumRef::Int(number)) => {
            Ok(Some(decimal_text(alloc, verb, number)?))
        }
        (Conversion::Hex, DatumRef::Int(number)) => Ok(Some(hex_number(alloc, verb, number)?)),
        (Conversion::Hex, DatumRef::Text(text)) => hex_filled(alloc, verb, text),
        (_, _) => {
            let plain = plain_text(alloc, conversion, datum)?;
            filled_text(alloc, verb, plain)
        }
    }
}

// A text with spaces, where the verb asks for neither zeros nor `+`.
fn filled_text(alloc: Global, verb: Verb, plain: Option<Text>) -> Result<Option<Text>, Memory>
    ensures { IfOk result (λ text. text ≡ spec.filled_text verb plain) }
{
    if verb.zeros || verb.plus {
        return Ok(None);
    }
    match plain {
        Some(plain) => Ok(Some(fill(alloc, verb, plain.as_str())?)),
        None => Ok(None),
    }
}

// An operand that is printed without digits, or as `print` does.
fn plain_text(
    alloc: Global,
    conversion: Conversion,
    datum: DatumRef<'_>,
) -> Result<Option<Text>, Memory>
    ensures { IfOk result
        (λ text. text ≡ spec.plain_operand_text conversion (ref_view datum.entry)) }
{
    match (conversion, datum) {
        (Conversion::Itself, DatumRef::Text(text)) => Ok(Some(Text::copy_of(alloc, text)?)),
        (Conversion::Truth, DatumRef::Bool(true)) => Ok(Some(Text::copy_of(alloc, "true")?)),
        (Conversion::Truth, DatumRef::Bool(false)) => Ok(Some(Text::copy_of(alloc, "false")?)),
        (Conversion::Any, _) => Ok(Some(shown(alloc, datum)?)),
        (_, _) => Ok(None),
    }
}

fn shown(alloc: Global, datum: DatumRef<'_>) -> Result<Text, Memory>
    ensures { IfOk result (λ text. text ≡ printed_spec.shown (ref_view datum.entry)) }
{
    let mut text = Text::new(alloc);
    show_datum(alloc, datum, &mut text)?;
    Ok(text)
}

// A text in hex digits with spaces, where the verb asks for neither zeros nor `+`.
fn hex_filled(alloc: Global, verb: Verb, text: &str) -> Result<Option<Text>, Memory>
    ensures { IfOk result (λ made. made ≡ spec.filled_text verb (Some (hex_bytes text.now))) }
{
    if verb.zeros || verb.plus {
        return Ok(None);
    }
    let digits = hex_text(alloc, text)?;
    Ok(Some(fill_ascii(alloc, verb, digits.as_str())?))
}

// Two lower hex digits for each byte.
fn hex_text(alloc: Global, text: &str) -> Result<Text, Memory>
    ensures { IfOk result (λ digits. digits ≡ hex_bytes text.now) }
{
    Ok(Text::from(hex::encode(alloc, text.as_bytes())?))
}
