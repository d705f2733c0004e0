ghost use Rattle.std.specs.Prelude.{◌≡◌, length, IfOk};
ghost use Rattle.page_http.specs.Replies.{IsSendable};
ghost use Rattle.page_office.specs.Clerks.{GivesReply, IsReloadReply};
ghost use Rattle.page_server.specs.Answering.{AnswersBySet};
ghost use Rattle.page_server.specs.Turns.{AnswersOnce};
ghost use Rattle.page_server.specs.Viewing.{MayHaveLearnt};

use crate::pager::Pager;
use page_datum::Pages;
use page_http::{Answer, Reply, Request, Routes};
use page_io::Memory;
use page_office::Clerk;
use set_publisher::{Named, Notice, Viewer};
use std::alloc::Global;
use std::sync::Wait;

/// What a request is answered by the set that the viewer has seen, which has this number, as the
/// pager finds it; the clerk answers a reload. It may wait, for the clerk. Fails only if memory runs
/// out, or where there was none for the routes.
pub(crate) fn answer<
    P: Pages + Drop,
    S: Notice<P>,
    J: Named,
    C: Clerk<P, S, J>,
    G: Pager<P>,
    R: Wait,
>(
    alloc: Global,
    rt: &R,
    routes: Option<&Routes>,
    viewer: &mut Viewer<P, S>,
    clerk: &mut C,
    pager: &mut G,
    request: &Request,
    number: u64,
) -> Result<Reply, Memory>
    requires desk { viewer.old.book ≡ J.desk }
    requires number { number ≡ length viewer.old.sets }
    requires stands { G.stands (G.state pager.old) viewer.old.sets }
    ensures answers { AnswersOnce G.pages
        (AnswersBySet P.execution P.made_of P.is_execution P.is_sound)
        viewer.old viewer.new (G.state pager.old) (G.state pager.new)
        (C.given clerk.old) (C.given clerk.new) request.now result }
    ensures learnt { MayHaveLearnt viewer.old viewer.new }
    ensures stands { G.stands (G.state pager.new) viewer.new.sets }
    ensures sendable { IfOk result IsSendable }
{
    let Some(routes) = routes else {
        return Err(Memory);
    };
    match pager.answer(alloc, routes, viewer.set(), request, number) {
        Ok(Answer::Reply(reply)) => Ok(reply),
        Ok(Answer::Reload) => ask_clerk(alloc, rt, viewer, clerk, number),
        Err(Memory) => Err(Memory),
    }
}

// What the clerk answers.
fn ask_clerk<P: Pages + Drop, S: Notice<P>, J: Named, C: Clerk<P, S, J>, R: Wait>(
    alloc: Global,
    rt: &R,
    viewer: &mut Viewer<P, S>,
    clerk: &mut C,
    number: u64,
) -> Result<Reply, Memory>
    requires { viewer.old.book ≡ J.desk }
    ensures gives { GivesReply (C.given clerk.old) (C.given clerk.new) result }
    ensures reply { IfOk result (IsReloadReply viewer.old viewer.new number) }
    ensures learnt { MayHaveLearnt viewer.old viewer.new }
    ensures sendable { IfOk result IsSendable }
{
    match clerk.answer(alloc, rt, viewer, number) {
        Ok(verdict) => Ok(verdict.reply()),
        Err(Memory) => Err(Memory),
    }
}
