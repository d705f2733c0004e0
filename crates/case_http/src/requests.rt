use case_table::{CaseOutput, CaseRow, CaseStop};
use page_http::{AtLeast, BodyKind, ReadOne, Request, read_request};

/// Writes what the bytes of a row begin with: the parts of a request and the bytes that it takes,
/// `More`, or `Refused` with the status.
pub fn put_request(out: &mut CaseOutput, row: &CaseRow) -> Result<(), CaseStop> {
    let bytes = row.bytes(out.alloc(), 0)?;
    match read_request(out.alloc(), bytes.as_slice()) {
        Ok(ReadOne::Whole(request, used)) => put_whole(out, &request, used),
        Ok(ReadOne::More) => out.put("More"),
        Ok(ReadOne::Refused(status)) => {
            out.put("Refused ");
            out.put_count(status as u64);
        }
        Err(_) => out.lose(),
    }
    Ok(())
}

fn put_whole(out: &mut CaseOutput, request: &Request, used: usize) {
    out.put(request.method.as_str());
    out.put(" ");
    out.put(request.path.as_str());
    out.put(" ?");
    put_bytes(out, request.query.as_slice());
    put_least(out, request.at_least);
    out.put(match request.body_kind {
        BodyKind::Json => " Json",
        BodyKind::Form => " Form",
        BodyKind::Other => " Other",
    });
    out.put(if request.close {
        " closes ["
    } else {
        " stays ["
    });
    put_bytes(out, request.body.as_slice());
    out.put("] ");
    out.put_count(used as u64);
}

fn put_least(out: &mut CaseOutput, at_least: AtLeast) {
    match at_least {
        AtLeast::Absent => out.put(" Absent"),
        AtLeast::Bad => out.put(" Bad"),
        AtLeast::Number(number) => {
            out.put(" ");
            out.put_count(number);
        }
    }
}

/// Writes bytes that are a text, or how many they are.
pub fn put_bytes(out: &mut CaseOutput, bytes: &[u8]) {
    match std::str::from_utf8(bytes) {
        Ok(text) if bytes.len() <= 4096 => out.put(text),
        _ => {
            out.put_count(bytes.len() as u64);
            out.put(" bytes");
        }
    }
}
