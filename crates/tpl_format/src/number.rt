ghost use Rattle.std.specs.Prelude.{◌≡◌, IfOk};
ghost use Rattle.tpl_format.specs.Operands.{decimal_number, number_sign};
ghost use Rattle.tpl_format.specs.Operands as spec;

use crate::fill::fill_number;
use crate::verb::Verb;
use page_io::{Memory, Text};
use std::alloc::Global;

/// A whole number in decimal, as a verb prints it. Fails only if allocation fails.
pub(crate) fn decimal_text(alloc: Global, verb: Verb, number: i64) -> Result<Text, Memory>
    ensures { IfOk result (λ text. text ≡ decimal_number verb number) }
{
    let size = number.unsigned_abs();
    let digits = format!(in alloc; "{size}")?;
    fill_number(alloc, verb, sign(verb, number), digits.as_str())
}

/// A whole number in lower hex digits, as a verb prints it. Fails only if allocation fails.
pub(crate) fn hex_number(alloc: Global, verb: Verb, number: i64) -> Result<Text, Memory>
    ensures { IfOk result (λ text. text ≡ spec.hex_number verb number) }
{
    let size = number.unsigned_abs();
    let digits = format!(in alloc; "{size:x}")?;
    fill_number(alloc, verb, sign(verb, number), digits.as_str())
}

// The sign that stands before the digits of a number.
fn sign<'a>(verb: Verb, number: i64) -> &'a str
    ensures { result.now ≡ number_sign verb number }
{
    if number < 0 {
        return "-";
    }
    if verb.plus {
        return "+";
    }
    ""
}
