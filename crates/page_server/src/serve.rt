ghost use Rattle.std.specs.Prelude.{◌≡◌, ◌+◌, ◌<◌, ◌≤◌, length, if◌then◌else◌};
ghost use mathlib.Core.List.{IsPrefix};
ghost use Rattle.page_io.specs.Causes.{Rose};
ghost use Rattle.page_server.specs.Answering.{AnswersBySet};
ghost use Rattle.page_server.specs.Held.{held_in};
ghost use Rattle.page_server.specs.Sending as spec;
ghost use Rattle.page_server.specs.Sessions.{ServesLink, ServesLinkWith, session, session_with};
ghost use Rattle.page_server.specs.Turns.{TurnAnswers};
ghost use Rattle.page_server.specs.declared.end.LinkWhy.TheVariants as why;
ghost use Rattle.page_server.specs.declared.turn.Turn.TheVariants as turn;

use crate::buffer::Buffer;
use crate::end::{LinkEnd, LinkWhy};
use crate::incoming::read_incoming;
use crate::link_room::LinkRoom;
use crate::pager::{Pager, PlainPager};
use crate::respond::respond;
use crate::send::send;
use crate::turn::Turn;
use page_datum::Pages;
use page_http::Routes;
use page_net::Link;
use page_office::Clerk;
use set_publisher::{Named, Notice, Viewer};
use std::alloc::Global;
use std::sync::Wait;

/// The most requests that are answered on one link.
pub const MAX_REQUESTS: u32 = 10_000;

// Whether the next reply is the last one, after so many.
fn is_last(requests: u32) -> bool
    requires { requests < 10000 }
    ensures { result ≡ spec.is_last requests }
{
    requests + 1 == MAX_REQUESTS
}

// The end of a link after so many replies and one that closes the connection.
fn closed(requests: u32, number: u64) -> LinkEnd
    requires { requests < 10000 }
    ensures requests { result.requests ≡ requests + 1 }
    ensures last { result.last ≡ number }
    ensures why { result.why ≡ (if spec.is_last requests then why.Full else why.Asked) }
{
    LinkEnd {
        requests: requests + 1,
        last: number,
        why: if is_last(requests) {
            LinkWhy::Full
        } else {
            LinkWhy::Asked
        },
    }
}

// Reads one request and answers it.
fn serve_one<
    P: Pages + Drop,
    S: Notice<P>,
    J: Named,
    C: Clerk<P, S, J>,
    G: Pager<P>,
    L: Link,
    R: Wait,
>(
    alloc: Global,
    rt: &R,
    routes: Option<&Routes>,
    viewer: &mut Viewer<P, S>,
    clerk: &mut C,
    pager: &mut G,
    link: &mut L,
    buffer: &mut Buffer,
    last: bool,
) -> Turn
    requires desk { viewer.old.book ≡ J.desk }
    requires stands { G.stands (G.state pager.old) viewer.old.sets }
    ensures turn { TurnAnswers G.pages
        (AnswersBySet P.execution P.made_of P.is_execution P.is_sound) last
        (session_with (L.left link.old) (L.taken link.old) (C.given clerk.old) viewer.old
        (G.state pager.old))
        (session_with (L.left link.new) (L.taken link.new) (C.given clerk.new) viewer.new
        (G.state pager.new))
        (held_in buffer.old) (held_in buffer.new) result }
    ensures desk { viewer.new.book ≡ viewer.old.book }
    ensures stands { G.stands (G.state pager.new) viewer.new.sets }
    ensures later { L.faults link.old ≤ L.faults link.new }
    ensures cause { result ≡ turn.Stopped why.LinkFault
        → Rose (L.faults link.old) (L.faults link.new) }
{
    match read_incoming(alloc, link, buffer) {
        Ok(incoming) => {
            let bytes = buffer.as_slice();
            let out = respond(
                alloc, rt, routes, viewer, clerk, pager, bytes, &incoming, last,
            );
            send(alloc, link, buffer, &out)
        }
        Err(why) => Turn::Stopped(why),
    }
}

/// Serves a link with a pager, as `serve_link` serves it with one that keeps nothing. What it keeps
/// has to stand where the viewer has seen what it has, and stands so afterwards.
pub(crate) fn serve_with<
    P: Pages + Drop,
    S: Notice<P>,
    J: Named,
    C: Clerk<P, S, J>,
    G: Pager<P>,
    L: Link,
    R: Wait,
>(
    alloc: Global,
    rt: &R,
    viewer: &mut Viewer<P, S>,
    clerk: &mut C,
    pager: &mut G,
    link: &mut L,
    room: &mut LinkRoom,
) -> LinkEnd
    requires desk { viewer.old.book ≡ J.desk }
    requires stands { G.stands (G.state pager.old) viewer.old.sets }
    ensures serves { ServesLinkWith G.pages
        (AnswersBySet P.execution P.made_of P.is_execution P.is_sound)
        (session_with (L.left link.old) (L.taken link.old) (C.given clerk.old) viewer.old
        (G.state pager.old))
        (session_with (L.left link.new) (L.taken link.new) (C.given clerk.new) viewer.new
        (G.state pager.new)) result }
    ensures desk { viewer.new.book ≡ viewer.old.book }
    ensures stands { G.stands (G.state pager.new) viewer.new.sets }
    ensures later { L.faults link.old ≤ L.faults link.new }
    ensures cause { result.why ≡ why.LinkFault → Rose (L.faults link.old) (L.faults link.new) }
{
    room.begin(alloc);
    let mut requests = 0;
    let mut last = 0;
    loop {
        match serve_one(
            alloc,
            rt,
            room.routes.as_ref(),
            viewer,
            clerk,
            pager,
            link,
            &mut room.buffer,
            is_last(requests),
        ) {
            Turn::Replied(number) => {
                requests += 1;
                last = number;
            }
            Turn::Closing(number) => return closed(requests, number),
            Turn::Stopped(why) => {
                return LinkEnd {
                    requests,
                    last,
                    why,
                };
            }
        }
    }
}

/// Serves a link: reads requests one after another, and answers each before it reads the next,
/// until the link's bytes end, a reply closes the connection, or the link fails. For each request
/// the viewer looks once, and the reply is by the set that it has seen then; a request for a reload
/// is handed to the clerk. It may wait: for the link, and for the clerk. The room is for any link:
/// what earlier links left in it is not seen on this one.
///
/// What was written is a reply to each request, in order, and after `LinkFault` a part of one more.
/// Want of memory is answered 503, which closes the connection; for the bytes of a request it ends
/// the link with `Memory`. `LinkFault` comes only where the link's count of faults rose.
pub fn serve_link<P: Pages + Drop, S: Notice<P>, J: Named, C: Clerk<P, S, J>, L: Link, R: Wait>(
    alloc: Global,
    rt: &R,
    viewer: &mut Viewer<P, S>,
    clerk: &mut C,
    link: &mut L,
    room: &mut LinkRoom,
) -> LinkEnd
    requires { viewer.old.book ≡ J.desk }
    ensures serves { ServesLink (AnswersBySet P.execution P.made_of P.is_execution P.is_sound)
        (session (L.left link.old) (L.taken link.old) (C.given clerk.old) viewer.old)
        (session (L.left link.new) (L.taken link.new) (C.given clerk.new) viewer.new) result }
    ensures desk { viewer.new.book ≡ viewer.old.book }
    ensures grows { IsPrefix viewer.old.sets viewer.new.sets }
    ensures last { 0 < result.requests → (length viewer.old.sets ≤ result.last)
        × (result.last ≤ length viewer.new.sets) }
    ensures later { L.faults link.old ≤ L.faults link.new }
    ensures cause { result.why ≡ why.LinkFault → Rose (L.faults link.old) (L.faults link.new) }
{
    serve_with(alloc, rt, viewer, clerk, &mut PlainPager, link, room)
}
