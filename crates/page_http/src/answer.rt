ghost use Rattle.std.specs.Prelude.{◌≡◌};
ghost use Rattle.page_http.specs.Answers.{AnswersRequest, AnswersSoundly, IsAnswerSendable};

use crate::ask::{Ask, read_ask_by};
use crate::page::{number_reply, page_reply};
use crate::reply::Reply;
use crate::request::Request;
use crate::routes::Routes;
use page_datum::Pages;
use page_io::Memory;
use std::alloc::Global;

/// What a request is answered.
#[derive(Debug, Drop)]
pub enum Answer {
    Reply(Reply),
    /// The files are to be read again; the reply says what came of it.
    Reload,
}

/// What a request is answered by a set of this number: its refusal, the page that it asks for, the
/// number, or a reload. A page's execution is one of the set's files, and a page is sound. Fails
/// only if memory runs out.
pub fn reply_to<P: Pages>(
    alloc: Global,
    routes: &Routes,
    pages: &P,
    request: &Request,
    number: u64,
) -> Result<Answer, Memory>
    ensures answers { AnswersRequest (P.execution pages.now) request.now number result }
    ensures sound { AnswersSoundly (P.execution pages.now) (P.is_execution (P.made_of pages.now))
        (P.is_sound (P.made_of pages.now)) request.now number result }
    ensures sendable { IsAnswerSendable result }
{
    match read_ask_by(alloc, routes, request, number) {
        Ok(Ask::Page(name, datum)) => {
            match page_reply(alloc, pages, number, name.as_str(), &datum) {
                Ok(reply) => Ok(Answer::Reply(reply)),
                Err(Memory) => Err(Memory),
            }
        }
        Ok(Ask::Number) => match number_reply(alloc, number) {
            Ok(reply) => Ok(Answer::Reply(reply)),
            Err(Memory) => Err(Memory),
        },
        Ok(Ask::Reload) => Ok(Answer::Reload),
        Ok(Ask::Refused(reply)) => Ok(Answer::Reply(reply)),
        Err(Memory) => Err(Memory),
    }
}
