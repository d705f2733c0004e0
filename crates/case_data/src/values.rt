use case_table::{CaseOutput, CaseRow, CaseStop};
use page_datum::{Datum, DatumRef, FaultKind, print_datum};
use tpl_value::{Picked, equal, field, index, length, less, slice, truth};

/// Writes what a call of `tpl_value` gives: each of its functions of data, which are texts of JSON; `field` with a name
/// after the datum, and `slice` with the places from which and to which it goes.
pub fn put_values(out: &mut CaseOutput, call: &str, row: &CaseRow) -> Result<(), CaseStop> {
    let datum = row.datum(out.alloc(), 0)?;
    let datum = datum.as_ref();
    match call {
        "truth" => put_truth(out, Ok(truth(datum))),
        "field" => put_picked(out, field(datum, row.text(1)?)),
        "length" => put_length(out, length(datum)),
        "slice" => put_slice(out, datum, row.number(1)?, row.number(2)?),
        _ => return put_two(out, call, datum, row.datum(out.alloc(), 1)?.as_ref()),
    }
    Ok(())
}

// Writes what a call of two data gives.
fn put_two(
    out: &mut CaseOutput,
    call: &str,
    datum: DatumRef<'_>,
    other: DatumRef<'_>,
) -> Result<(), CaseStop> {
    match call {
        "equal" => put_truth(out, equal(datum, other)),
        "less" => put_truth(out, less(datum, other)),
        "index" => put_picked(out, index(datum, other)),
        _ => return Err(CaseStop::Form),
    }
    Ok(())
}

fn put_fault(out: &mut CaseOutput, fault: FaultKind) {
    out.put_made(format!(in out.alloc(); "{fault:?}"));
}

fn put_truth(out: &mut CaseOutput, answer: Result<bool, FaultKind>) {
    match answer {
        Ok(true) => out.put("true"),
        Ok(false) => out.put("false"),
        Err(fault) => put_fault(out, fault),
    }
}

fn put_length(out: &mut CaseOutput, length: Result<i64, FaultKind>) {
    match length {
        Ok(length) => out.put_made(format!(in out.alloc(); "{length}")),
        Err(fault) => put_fault(out, fault),
    }
}

// Writes what was found: a value in brackets as it is printed, with null as a word, or nothing.
fn put_picked<'a>(out: &mut CaseOutput, picked: Result<Picked<'a>, FaultKind>) {
    match picked {
        Ok(Picked::Value(Datum::Null)) => out.put("(null)"),
        Ok(Picked::Value(value)) => {
            out.put("(");
            out.put_text(print_datum(out.alloc(), value.as_ref()));
            out.put(")");
        }
        Ok(Picked::Nothing) => out.put("nothing"),
        Err(fault) => put_fault(out, fault),
    }
}

// Writes a part after its kind.
fn put_slice(out: &mut CaseOutput, datum: DatumRef<'_>, from: i64, to: i64) {
    match slice(datum, from, to) {
        Ok(part) => {
            out.put(kind_of(part));
            out.put_text(print_datum(out.alloc(), part));
        }
        Err(fault) => put_fault(out, fault),
    }
}

fn kind_of(part: DatumRef<'_>) -> &'static str {
    match part {
        DatumRef::List(_) => "list ",
        DatumRef::Text(_) => "text ",
        _ => "other ",
    }
}
