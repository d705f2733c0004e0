use case_table::{CaseOutput, CaseRow, CaseStop, counts_of};
use page_io::{Bytes, List, Text};

/// Writes what a call of a text, of bytes or of a list gives: what it has in the end, and how two texts compare.
pub fn put_texts(out: &mut CaseOutput, call: &str, row: &CaseRow) -> Result<(), CaseStop> {
    match call {
        "Text/push_str" => put_joined(out, row.text(0)?, row.text(1)?),
        "Text/cmp" => put_order(out, row.text(0)?, row.text(1)?),
        "Bytes/push_slice" => {
            let rest = row.bytes(out.alloc(), 1)?;
            put_bytes(out, row.bytes(out.alloc(), 0)?, rest.as_slice())
        }
        "List/push" => {
            let list = counts_of(out.alloc(), row.list(0)?)?;
            put_numbers(out, List::from(list.into_vec()).as_slice());
            Ok(())
        }
        _ => Err(CaseStop::Form),
    }
}

fn put_joined(out: &mut CaseOutput, prefix: &str, rest: &str) -> Result<(), CaseStop> {
    let mut text = Text::copy_of(out.alloc(), prefix)?;
    text.push_str(rest)?;
    out.put(text.into_string().as_str());
    Ok(())
}

// Writes how a text stands to another.
fn put_order(out: &mut CaseOutput, text: &str, other: &str) -> Result<(), CaseStop> {
    let text = Text::copy_of(out.alloc(), text)?;
    let other = Text::from(String::from_str(out.alloc(), other)?);
    out.put(if text < other { "less" } else { "not less" });
    out.put(if text == other {
        ", equal"
    } else {
        ", not equal"
    });
    Ok(())
}

fn put_bytes(out: &mut CaseOutput, prefix: Bytes, rest: &[u8]) -> Result<(), CaseStop> {
    let mut bytes = prefix;
    bytes.push_slice(rest)?;
    for byte in Bytes::from(bytes.into_vec()).as_slice() {
        out.put_between(" ");
        out.put_count(*byte as u64);
    }
    Ok(())
}

fn put_numbers(out: &mut CaseOutput, numbers: &[u64]) {
    for number in numbers {
        out.put_between(" ");
        out.put_count(*number);
    }
}
