use crate::replies::put_sent;
use case_table::{CaseOutput, CaseRow, CaseStop};
use page_datum::{Datum, print_datum};
use page_http::{Ask, ReadOne, Request, read_ask, read_request};
use std::alloc::Global;

/// Writes what the request of a row asks for, where the set has the number of the row: a page with
/// its data, `Number`, `Reload`, or the bytes of the reply that refuses it.
pub fn put_ask(out: &mut CaseOutput, row: &CaseRow) -> Result<(), CaseStop> {
    let request = request_at(out.alloc(), row, 0)?;
    let number = row.count(1)?;
    let Ok(ask) = read_ask(out.alloc(), &request, number) else {
        return Err(CaseStop::Memory);
    };
    match ask {
        Ask::Page(name, datum) => put_page(out, name.as_str(), &datum),
        Ask::Number => out.put("Number"),
        Ask::Reload => out.put("Reload"),
        Ask::Refused(reply) => return put_sent(out, &reply, request.close),
    }
    Ok(())
}

/// The request that the bytes of a part of a row are, to their end.
pub fn request_at(alloc: Global, row: &CaseRow, part: usize) -> Result<Request, CaseStop> {
    let bytes = row.bytes(alloc, part)?;
    match read_request(alloc, bytes.as_slice()) {
        Ok(ReadOne::Whole(request, used)) if used == bytes.len() => Ok(request),
        _ => Err(CaseStop::Form),
    }
}

fn put_page(out: &mut CaseOutput, name: &str, datum: &Datum) {
    out.put(name);
    out.put(" ");
    out.put_text(print_datum(out.alloc(), datum.as_ref()));
}
