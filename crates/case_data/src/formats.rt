use case_table::{CaseOutput, CaseRow, CaseStop};
use page_datum::{Datum, DatumRef, ValueStop};
use page_io::{Memory, Text};
use std::alloc::Global;
use tpl_format::{print, printf};

/// Writes what a call of `tpl_format` gives: `print`, `println` and `printf` of arguments, which are a text of JSON, a
/// list; and each of them of texts, which are the parts of the row, with the length of what it makes.
pub fn put_formats(out: &mut CaseOutput, call: &str, row: &CaseRow) -> Result<(), CaseStop> {
    match call.split_once(' ') {
        Some((call, "of texts")) => put_call(out, call, row.as_slice(), true),
        Some(_) => Err(CaseStop::Form),
        None => match row.datum(out.alloc(), 0)? {
            Datum::List(arguments) => put_call(out, call, arguments.as_slice(), false),
            _ => Err(CaseStop::Form),
        },
    }
}

// Writes what a function makes of arguments, or how long that is where it is measured.
fn put_call(
    out: &mut CaseOutput,
    call: &str,
    arguments: &[Datum],
    is_measured: bool,
) -> Result<(), CaseStop> {
    let arguments = lent(out.alloc(), arguments)?;
    let arguments = arguments.as_slice();
    let made = match call {
        "print" => print(out.alloc(), arguments, false),
        "println" => print(out.alloc(), arguments, true),
        "printf" => printf(out.alloc(), arguments),
        _ => return Err(CaseStop::Form),
    };
    put_made(out, made, is_measured);
    Ok(())
}

fn lent<'a>(alloc: Global, values: &'a [Datum]) -> Result<Vec<DatumRef<'a>>, Memory> {
    let mut lent = Vec::new(alloc);
    for value in values {
        lent.push(value.as_ref())?;
    }
    Ok(lent)
}

fn put_made(out: &mut CaseOutput, made: Result<Text, ValueStop>, is_measured: bool) {
    match made {
        Ok(text) if is_measured => {
            let length = text.as_str().len();
            out.put_made(format!(in out.alloc(); "{length} bytes"));
        }
        Ok(text) => out.put(text.as_str()),
        Err(ValueStop::Fault(fault)) => out.put_made(format!(in out.alloc(); "{fault:?}")),
        Err(ValueStop::Memory) => out.lose(),
    }
}
