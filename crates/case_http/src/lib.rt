// The calls of tables of cases on requests and replies of HTTP.
#![tactic(auto)]

mod answers;
mod asks;
mod replies;
mod requests;

use case_table::{CaseOutput, CaseRow, CaseStop};

/// Writes what a call of `page_http` gives for a row.
pub fn put_http(out: &mut CaseOutput, call: &str, row: &CaseRow) -> Result<(), CaseStop> {
    match call {
        "read_request" => requests::put_request(out, row),
        "read_ask" => asks::put_ask(out, row),
        "reply_to" => answers::put_answer(out, row),
        "reply_bytes" => replies::put_reply(out, row),
        "phrase_reply" => replies::put_phrase(out, row),
        "number_reply" => replies::put_number(out, row),
        "unavailable" => replies::put_unavailable(out, row),
        _ => Err(CaseStop::Form),
    }
}
