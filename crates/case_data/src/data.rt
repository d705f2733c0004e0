use case_table::{CaseOutput, CaseRow, CaseStop, datum_of, pair_of, text_of};
use page_datum::{DataRefused, Datum, DatumRef, Entries, print_datum, read_datum, show_datum};
use page_io::{Memory, Text};
use std::alloc::Global;

/// Writes what a call of `page_datum` gives: `read_datum` of bytes, with the datum as it is printed, and `printed_length`,
/// with how many bytes that are. Of data, which are texts of JSON: `print_datum`; `show_datum` after a text; a copy; `get`,
/// what stands at a key, also in a copy; and `len`. `from_pairs` of pairs of a key and a text of JSON, with the dictionary
/// as it is printed. And `refusal`, why bytes are refused, as `Display` prints it.
pub fn put_data(out: &mut CaseOutput, call: &str, row: &CaseRow) -> Result<(), CaseStop> {
    match call {
        "read_datum" | "printed_length" | "refusal" => {
            let bytes = row.bytes(out.alloc(), 0)?;
            put_read(out, call, bytes.as_slice());
            Ok(())
        }
        "from_pairs" => put_pairs(out, row.list(0)?),
        "show_datum" => put_twice(out, row.text(0)?, &row.datum(out.alloc(), 1)?),
        "get" | "get_of_copy" => put_entry(out, call, &row.datum(out.alloc(), 0)?, row.text(1)?),
        "print_datum" | "copy" | "len" => put_datum(out, call, row.datum(out.alloc(), 0)?),
        _ => Err(CaseStop::Form),
    }
}

// Writes the datum that bytes stand for, or how long it is printed, or why they are refused.
fn put_read(out: &mut CaseOutput, call: &str, bytes: &[u8]) {
    match read_datum(out.alloc(), bytes) {
        Ok(datum) => put_printed(out, call, &datum),
        Err(refused) if call == "refusal" => out.put_made(format!(in out.alloc(); "{refused}")),
        Err(refused) => put_refusal(out, &refused),
    }
}

fn put_printed(out: &mut CaseOutput, call: &str, datum: &Datum) {
    match (call, print_datum(out.alloc(), datum.as_ref())) {
        ("read_datum", Ok(printed)) => out.put(printed.as_str()),
        ("printed_length", Ok(printed)) => {
            let length = printed.as_str().len();
            out.put_made(format!(in out.alloc(); "{length} bytes"));
        }
        (_, Ok(_)) => out.put("a datum"),
        (_, Err(_)) => out.lose(),
    }
}

fn put_refusal(out: &mut CaseOutput, refused: &DataRefused) {
    match refused {
        DataRefused::TooLong(length) => out.put_made(format!(in out.alloc(); "TooLong {length}")),
        DataRefused::TooDeep => out.put("TooDeep"),
        DataRefused::NotJson => out.put("NotJson"),
        DataRefused::NotWhole(path) => {
            out.put("NotWhole ");
            out.put(path.as_str());
        }
        DataRefused::Memory => out.lose(),
    }
}

// Writes a datum twice, shown after a text.
fn put_twice(out: &mut CaseOutput, before: &str, datum: &Datum) -> Result<(), CaseStop> {
    let mut shown = Text::copy_of(out.alloc(), before)?;
    show_datum(out.alloc(), datum.as_ref(), &mut shown)?;
    show_datum(out.alloc(), datum.as_ref(), &mut shown)?;
    out.put(shown.as_str());
    Ok(())
}

// Writes what stands at a key of a dictionary, or of its copy.
fn put_entry(out: &mut CaseOutput, call: &str, datum: &Datum, key: &str) -> Result<(), CaseStop> {
    if call == "get" {
        return put_value(out, datum, key);
    }
    put_value(out, &datum.copy(out.alloc())?, key)
}

fn put_value(out: &mut CaseOutput, datum: &Datum, key: &str) -> Result<(), CaseStop> {
    let Datum::Dict(entries) = datum else {
        return Err(CaseStop::Form);
    };
    match entries.get(key) {
        Some(value) => out.put_text(print_datum(out.alloc(), value.as_ref())),
        None => out.put("nothing"),
    }
    Ok(())
}

// Writes a datum, how many items or entries it has, or a copy of its copy when the datum itself is gone.
fn put_datum(out: &mut CaseOutput, call: &str, datum: Datum) -> Result<(), CaseStop> {
    match (call, &datum) {
        ("print_datum", datum) => out.put_text(print_datum(out.alloc(), datum.as_ref())),
        ("len", Datum::List(items)) => out.put_count(items.len() as u64),
        ("len", Datum::Dict(entries)) => out.put_count(entries.len() as u64),
        ("copy", _) => {
            let copy = copy_of_copy(out, datum)?;
            out.put_text(print_datum(out.alloc(), copy.as_ref()));
        }
        _ => return Err(CaseStop::Form),
    }
    Ok(())
}

fn copy_of_copy(out: &CaseOutput, datum: Datum) -> Result<Datum, Memory> {
    let copy = datum.copy(out.alloc())?;
    drop(datum);
    copy.copy(out.alloc())
}

// Writes the dictionary of pairs of a key and a text of JSON.
fn put_pairs(out: &mut CaseOutput, parts: &[Datum]) -> Result<(), CaseStop> {
    let pairs = pairs_of(out.alloc(), parts)?;
    let entries = Entries::from_pairs(out.alloc(), pairs)?;
    out.put_text(print_datum(out.alloc(), DatumRef::Dict(&entries)));
    Ok(())
}

fn pairs_of(alloc: Global, parts: &[Datum]) -> Result<Vec<(Text, Datum)>, CaseStop> {
    let mut pairs = Vec::new(alloc);
    for part in parts {
        let (key, value) = pair_of(part)?;
        pairs.push(parsed_pair(alloc, key, value)?)?;
    }
    Ok(pairs)
}

fn parsed_pair(alloc: Global, key: &Datum, value: &Datum) -> Result<(Text, Datum), CaseStop> {
    let value = datum_of(alloc, value)?;
    Ok((Text::copy_of(alloc, text_of(key)?)?, value))
}
