use crate::asks::request_at;
use crate::replies::put_sent;
use case_table::{CaseOutput, CaseRow, CaseStop, bytes_of, pair_of, text_of};
use page_datum::{Datum, Files, NamedFile, Pages};
use page_http::{Answer, Routes, reply_to};
use page_io::{List, Text};
use page_set::PageSet;
use std::alloc::Global;

/// Writes the bytes of the reply to the request of a row, by the set of its files and a number, or
/// `Reload`.
pub fn put_answer(out: &mut CaseOutput, row: &CaseRow) -> Result<(), CaseStop> {
    let alloc = out.alloc();
    let set = set_of(alloc, row.list(0)?)?;
    let request = request_at(alloc, row, 1)?;
    let number = row.count(2)?;
    let Ok(routes) = Routes::new(alloc) else {
        return Err(CaseStop::Memory);
    };
    match reply_to(alloc, &routes, &set, &request, number) {
        Ok(Answer::Reply(reply)) => put_sent(out, &reply, request.close),
        Ok(Answer::Reload) => {
            out.put("Reload");
            Ok(())
        }
        Err(_) => Err(CaseStop::Memory),
    }
}

// The set of files, each a list of its name and its bytes.
fn set_of(alloc: Global, files: &[Datum]) -> Result<PageSet, CaseStop> {
    let mut list = List::new(alloc);
    for file in files {
        let (name, bytes) = pair_of(file)?;
        list.push(NamedFile {
            name: Text::copy_of(alloc, text_of(name)?)?,
            bytes: bytes_of(alloc, bytes)?,
        })?;
    }
    let files = Files {
        dir: Text::copy_of(alloc, "D")?,
        list,
    };
    match PageSet::make(alloc, files) {
        Ok(set) => Ok(set),
        Err(_) => Err(CaseStop::Form),
    }
}
