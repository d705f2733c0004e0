use crate::case_row::CaseRow;
use crate::output::CaseOutput;
use page_datum::print_datum;

// How many characters of a text are printed.
const MOST: usize = 600;

/// Writes a case that differs: its call with what it was given, what it gave and what was wanted.
pub fn put_difference(out: &mut CaseOutput, call: &str, row: &CaseRow, given: &str, wanted: &str) {
    out.put(call);
    for part in row.as_slice() {
        out.put("\n  of     ");
        match print_datum(out.alloc(), part.as_ref()) {
            Ok(part) => put_quoted(out, part.as_str()),
            Err(_) => out.lose(),
        }
    }
    out.put("\n  gives  ");
    put_quoted(out, given);
    out.put("\n  wanted ");
    put_quoted(out, wanted);
    out.put("\n");
}

// Writes a text in quotes, or its first characters and two dots.
fn put_quoted(out: &mut CaseOutput, text: &str) {
    let alloc = out.alloc();
    match text.char_indices().nth(MOST) {
        Some((end, _)) => {
            let (prefix, _) = text.split_at(end);
            out.put_made(format!(in alloc; "{prefix:?} .."));
        }
        None => out.put_made(format!(in alloc; "{text:?}")),
    }
}
