ghost use Rattle.std.specs.Prelude.{◌≡◌, ◌≢◌, Bool, ◌||◌, List, [], length, Option, IfOk};
ghost use Rattle.page_http.specs.Bodies.{IsReadStatus};
ghost use Rattle.page_http.specs.Replies.{IsSendable};
ghost use Rattle.page_http.specs.Requests.{Refuses};
ghost use Rattle.page_http.specs.declared.reply.Reply.{Reply};
ghost use Rattle.page_server.specs.Answering.{AnswersBySet, BeginsWithRequest};
ghost use Rattle.page_server.specs.Turns.{LooksAndResponds, Responds};
ghost use Rattle.page_server.specs.Waiting.{IsIncoming};

use crate::answer::answer;
use crate::incoming::Incoming;
use crate::outgoing::Outgoing;
use crate::pager::Pager;
use page_datum::Pages;
use page_http::{Request, Routes, phrase_reply};
use page_io::Memory;
use page_office::Clerk;
use set_publisher::{Named, Notice, Viewer};
use std::alloc::Global;
use std::sync::Wait;

/// Looks once for the newest set, and makes what goes out to the first of the bytes. It may wait,
/// for the clerk.
pub(crate) fn respond<
    P: Pages + Drop,
    S: Notice<P>,
    J: Named,
    C: Clerk<P, S, J>,
    G: Pager<P>,
    R: Wait,
>(
    alloc: Global,
    rt: &R,
    routes: Option<&Routes>,
    viewer: &mut Viewer<P, S>,
    clerk: &mut C,
    pager: &mut G,
    bytes: &[u8],
    incoming: &Incoming,
    last: bool,
) -> Outgoing
    requires desk { viewer.old.book ≡ J.desk }
    requires incoming { IsIncoming bytes.now incoming.now }
    requires stands { G.stands (G.state pager.old) viewer.old.sets }
    ensures responds { LooksAndResponds G.pages
        (AnswersBySet P.execution P.made_of P.is_execution P.is_sound) last
        viewer.old viewer.new (G.state pager.old) (G.state pager.new)
        (C.given clerk.old) (C.given clerk.new) bytes.now result }
    ensures stands { G.stands (G.state pager.new) viewer.new.sets }
    ensures sendable { IfOk result.reply IsSendable }
{
    let number = viewer.current();
    match incoming {
        Incoming::Request(request, used) => {
            to_request(
                alloc, rt, routes, viewer, clerk, pager, bytes, request, *used, last, number,
            )
        }
        Incoming::Refused(status) => to_refused::<P, S, G>(alloc, viewer, bytes, *status),
        Incoming::NoMemory => to_unread::<P, S, G>(viewer, bytes),
    }
}

// Whether the connection ends with the reply to a request.
fn closes(request: &Request, last: bool) -> bool
    ensures { result ≡ (request.now.close || last) }
{
    request.close || last
}

// What goes out to a request, which the first `used` of the bytes are.
fn to_request<P: Pages + Drop, S: Notice<P>, J: Named, C: Clerk<P, S, J>, G: Pager<P>, R: Wait>(
    alloc: Global,
    rt: &R,
    routes: Option<&Routes>,
    viewer: &mut Viewer<P, S>,
    clerk: &mut C,
    pager: &mut G,
    bytes: &[u8],
    request: &Request,
    used: usize,
    last: bool,
    number: u64,
) -> Outgoing
    requires desk { viewer.old.book ≡ J.desk }
    requires whole { BeginsWithRequest bytes.now request.now used }
    requires number { number ≡ length viewer.old.sets }
    requires stands { G.stands (G.state pager.old) viewer.old.sets }
    ensures responds { Responds G.pages
        (AnswersBySet P.execution P.made_of P.is_execution P.is_sound) last
        viewer.old viewer.new (G.state pager.old) (G.state pager.new)
        (C.given clerk.old) (C.given clerk.new) bytes.now result }
    ensures stands { G.stands (G.state pager.new) viewer.new.sets }
    ensures sendable { IfOk result.reply IsSendable }
{
    let reply = answer(alloc, rt, routes, viewer, clerk, pager, request, number);
    Outgoing {
        reply,
        close: closes(request, last),
        number: viewer.number(),
        used,
    }
}

// What goes out to bytes that are refused.
fn to_refused<P: Pages + Drop, S: Notice<P>, G: Pager<P>>(
    alloc: Global,
    viewer: &Viewer<P, S>,
    bytes: &[u8],
    status: u16,
) -> Outgoing
    requires refuses { Refuses bytes.now status }
    requires status { IsReadStatus status }
    requires some { bytes.now ≢ [] }
    ensures responds { (last : Bool) (kept : G.State) (given : Option (List Reply)) → Responds G.pages
        (AnswersBySet P.execution P.made_of P.is_execution P.is_sound) last
        viewer.now viewer.now kept kept given given bytes.now result }
    ensures sendable { IfOk result.reply IsSendable }
{
    let number = viewer.number();
    Outgoing {
        reply: phrase_reply(alloc, status, number),
        close: true,
        number,
        used: bytes.len(),
    }
}

// What goes out to bytes that were not read, since memory ran out.
fn to_unread<P: Pages + Drop, S: Notice<P>, G: Pager<P>>(
    viewer: &Viewer<P, S>,
    bytes: &[u8],
) -> Outgoing
    requires { bytes.now ≢ [] }
    ensures responds { (last : Bool) (kept : G.State) (given : Option (List Reply)) → Responds G.pages
        (AnswersBySet P.execution P.made_of P.is_execution P.is_sound) last
        viewer.now viewer.now kept kept given given bytes.now result }
    ensures sendable { IfOk result.reply IsSendable }
{
    Outgoing {
        reply: Err(Memory),
        close: true,
        number: viewer.number(),
        used: bytes.len(),
    }
}
