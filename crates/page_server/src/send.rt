ghost use Rattle.std.specs.Prelude.{◌≡◌, ◌≤◌, true, length, IfOk};
ghost use Rattle.page_io.specs.Causes.{Rose};
ghost use Rattle.page_http.specs.Replies.{IsSendable};
ghost use Rattle.page_http.specs.Replies as spec;
ghost use Rattle.page_server.specs.Held.{held_in};
ghost use Rattle.page_server.specs.Serving.{sent};
ghost use Rattle.page_server.specs.Turns.{IsOutgoingSent, IsSent, IsReplyWritten};
ghost use Rattle.page_server.specs.declared.end.LinkWhy.TheVariants as why;
ghost use Rattle.page_server.specs.declared.turn.Turn.TheVariants as turn;

use crate::buffer::Buffer;
use crate::end::LinkWhy;
use crate::outgoing::Outgoing;
use crate::turn::Turn;
use page_http::{Unavailable, reply_bytes};
use page_io::{Failed, Memory};
use page_net::{Link, write_all};
use std::alloc::Global;

/// Sends a reply, and lets go of the bytes that it answers; or the reply 503, where memory ran out
/// or there is none for the bytes of the reply.
pub(crate) fn send<L: Link>(
    alloc: Global,
    link: &mut L,
    buffer: &mut Buffer,
    out: &Outgoing,
) -> Turn
    requires used { out.now.used ≤ length (held_in buffer.old) }
    requires sendable { IfOk out.now.reply IsSendable }
    ensures sent { IsOutgoingSent (L.taken link.old) (L.taken link.new)
        (held_in buffer.old) (held_in buffer.new)
        out.now.used out.now.close out.now.number out.now.reply result }
    ensures left { L.left link.new ≡ L.left link.old }
    ensures later { L.faults link.old ≤ L.faults link.new }
    ensures cause { result ≡ turn.Stopped why.LinkFault
        → Rose (L.faults link.old) (L.faults link.new) }
{
    match &out.reply {
        Ok(reply) => match reply_bytes(alloc, reply, out.close) {
            Ok(bytes) => {
                write(
                    link,
                    buffer,
                    out.used,
                    bytes.as_slice(),
                    reply.number,
                    out.close,
                )
            }
            Err(Memory) => send_unavailable(link, buffer, out.used, out.number),
        },
        Err(Memory) => send_unavailable(link, buffer, out.used, out.number),
    }
}

// Sends the reply 503, after which the connection ends.
fn send_unavailable<L: Link>(link: &mut L, buffer: &mut Buffer, used: usize, number: u64) -> Turn
    requires { used ≤ length (held_in buffer.old) }
    ensures sent { IsSent (L.taken link.old) (L.taken link.new)
        (held_in buffer.old) (held_in buffer.new) used
        (sent (spec.unavailable number) true) result }
    ensures left { L.left link.new ≡ L.left link.old }
    ensures later { L.faults link.old ≤ L.faults link.new }
    ensures cause { result ≡ turn.Stopped why.LinkFault
        → Rose (L.faults link.old) (L.faults link.new) }
{
    let reply = Unavailable::new(number);
    write(link, buffer, used, reply.as_slice(), number, true)
}

// Writes the bytes of a reply, and lets go of the bytes that it answers.
fn write<L: Link>(
    link: &mut L,
    buffer: &mut Buffer,
    used: usize,
    bytes: &[u8],
    number: u64,
    close: bool,
) -> Turn
    requires { used ≤ length (held_in buffer.old) }
    ensures written { IsReplyWritten (L.taken link.old) (L.taken link.new)
        (held_in buffer.old) (held_in buffer.new) used bytes.now number close result }
    ensures left { L.left link.new ≡ L.left link.old }
    ensures later { L.faults link.old ≤ L.faults link.new }
    ensures cause { result ≡ turn.Stopped why.LinkFault
        → Rose (L.faults link.old) (L.faults link.new) }
{
    match write_all(link, bytes) {
        Ok(()) => {
            buffer.consume(used);
            if close {
                Turn::Closing(number)
            } else {
                Turn::Replied(number)
            }
        }
        Err(Failed) => Turn::Stopped(LinkWhy::LinkFault),
    }
}
