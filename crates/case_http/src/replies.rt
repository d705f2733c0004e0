use crate::requests::put_bytes;
use case_table::{CaseOutput, CaseRow, CaseStop};
use page_http::{
    Allow, Reply, Unavailable, is_reply_status, number_reply, phrase_reply, reply_bytes,
};
use page_io::Memory;

/// Writes the bytes of the reply of a row: its status, `html` or `text`, the number of its set, its
/// methods, its body, and `stays` or `closes`.
pub fn put_reply(out: &mut CaseOutput, row: &CaseRow) -> Result<(), CaseStop> {
    let allow = match row.text(3)? {
        "" => Allow::Nothing,
        "GET" => Allow::Get,
        "POST" => Allow::Post,
        "GET, POST" => Allow::GetPost,
        _ => return Err(CaseStop::Form),
    };
    let reply = Reply {
        status: status_of(row.count(0)?)?,
        html: row.word(1, "text", "html")?,
        number: row.count(2)?,
        allow,
        body: row.bytes(out.alloc(), 4)?,
    };
    let closes = row.word(5, "stays", "closes")?;
    put_sent(out, &reply, closes)
}

/// Writes the bytes of the reply of a status alone, behind which the connection ends.
pub fn put_phrase(out: &mut CaseOutput, row: &CaseRow) -> Result<(), CaseStop> {
    let status = status_of(row.count(0)?)?;
    if !is_reply_status(status) {
        return Err(CaseStop::Form);
    }
    put_made(out, phrase_reply(out.alloc(), status, row.count(1)?))
}

/// Writes the bytes of the reply with a number, behind which the connection ends.
pub fn put_number(out: &mut CaseOutput, row: &CaseRow) -> Result<(), CaseStop> {
    put_made(out, number_reply(out.alloc(), row.count(0)?))
}

/// Writes the bytes of the reply where memory has run out.
pub fn put_unavailable(out: &mut CaseOutput, row: &CaseRow) -> Result<(), CaseStop> {
    let reply = Unavailable::new(row.count(0)?);
    put_bytes(out, reply.as_slice());
    Ok(())
}

fn status_of(number: u64) -> Result<u16, CaseStop> {
    match u16::try_from(number) {
        Ok(status) => Ok(status),
        Err(_) => Err(CaseStop::Form),
    }
}

fn put_made(out: &mut CaseOutput, reply: Result<Reply, Memory>) -> Result<(), CaseStop> {
    match reply {
        Ok(reply) => put_sent(out, &reply, true),
        Err(_) => Err(CaseStop::Memory),
    }
}

/// Writes the bytes of a reply. One that cannot be sent is no row.
pub fn put_sent(out: &mut CaseOutput, reply: &Reply, closes: bool) -> Result<(), CaseStop> {
    if !reply.is_sendable() {
        return Err(CaseStop::Form);
    }
    match reply_bytes(out.alloc(), reply, closes) {
        Ok(bytes) => put_bytes(out, bytes.as_slice()),
        Err(_) => out.lose(),
    }
    Ok(())
}
