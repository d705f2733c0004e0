ghost use Rattle.std.specs.Prelude.{◌≡◌, ◌++◌, ◌∷◌, [], IfOk, codes};
ghost use Rattle.std.specs.Fmt.{decimal};
ghost use Rattle.page_datum.specs.View.{view};
ghost use Rattle.page_http.specs.Pages.{IsPage};
ghost use Rattle.page_http.specs.Pages as spec;
ghost use Rattle.page_http.specs.Replies.{IsSendable};

use crate::body_sink::BodySink;
use crate::refusal::phrase_reply;
use crate::reply::{Allow, Reply, push_number};
use page_datum::{Datum, ExecFault, PageStop, Pages, legible};
use page_io::{Bytes, Memory};
use std::alloc::Global;

/// The reply with the page of a root with a datum, where the set has this number: 200 with the page
/// where the execution is done, 404 where no root has the name, and 500 with the fault where it
/// meets one. The execution is one of the set's files, and a page is sound. Fails only if memory
/// runs out.
pub fn page_reply<P: Pages>(
    alloc: Global,
    pages: &P,
    number: u64,
    name: &str,
    datum: &Datum,
) -> Result<Reply, Memory>
    ensures sendable { IfOk result IsSendable }
    ensures reply { IfOk result (λ reply. reply
        ≡ spec.page_reply (P.execution pages.now name.now (view datum.now)) number) }
    ensures meant { P.is_execution (P.made_of pages.now) name.now (view datum.now)
        (P.execution pages.now name.now (view datum.now)) }
    ensures sound { IfOk result (λ reply. IsPage reply
        → P.is_sound (P.made_of pages.now) name.now (view datum.now) reply.body) }
{
    let mut body = BodySink::new(alloc);
    match pages.page(alloc, name, datum, &mut body) {
        Ok(_) => Ok(page_of(body.into_bytes(), number)),
        Err(PageStop::NoTemplate) => phrase_reply(alloc, 404, number),
        Err(PageStop::Fault(fault)) => fault_reply(alloc, &fault, number),
        Err(PageStop::SinkStop) => Err(Memory),
        Err(PageStop::Memory) => Err(Memory),
    }
}

// The reply with a page.
fn page_of(page: Bytes, number: u64) -> Reply
    ensures value { result ≡ spec.done_reply page number }
    ensures sendable { IsSendable result }
{
    Reply {
        status: 200,
        html: true,
        number,
        allow: Allow::Nothing,
        body: page,
    }
}

// The reply where the execution meets a fault.
fn fault_reply(alloc: Global, fault: &ExecFault, number: u64) -> Result<Reply, Memory>
    ensures value { IfOk result (λ reply. reply ≡ spec.fault_reply fault.now number) }
    ensures sendable { IfOk result IsSendable }
{
    let template = legible(alloc, fault.template.as_str())?;
    let (kind, template, line) = (fault.kind, template.as_str(), fault.line);
    let body = format!(in alloc; "fault {kind} {template}:{line}\n")?;
    Ok(Reply {
        status: 500,
        html: false,
        number,
        allow: Allow::Nothing,
        body: Bytes::from(body.into_bytes()),
    })
}

/// The reply with the number of the set, to `/set` and after a reload. Fails only if allocation
/// fails.
pub fn number_reply(alloc: Global, number: u64) -> Result<Reply, Memory>
    ensures reply { IfOk result (λ reply. reply ≡ spec.number_reply number) }
    ensures sendable { IfOk result IsSendable }
{
    let body = number_body(alloc, number)?;
    Ok(Reply {
        status: 200,
        html: false,
        number,
        allow: Allow::Nothing,
        body,
    })
}

// More than the bytes of a number, and what stands round it.
const NUMBER_ROOM: usize = 32;

fn number_body(alloc: Global, number: u64) -> Result<Bytes, Memory>
    ensures { IfOk result (λ body. body ≡ codes "set " ++ (decimal number ++ 10 ∷ [])) }
{
    let mut body = Vec::with_capacity(alloc, NUMBER_ROOM)?;
    push_number(&mut body, b"set ", number)?;
    body.push(b'\n')?;
    Ok(Bytes::from(body))
}
