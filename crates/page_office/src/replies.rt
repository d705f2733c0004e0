ghost use Rattle.std.specs.Prelude.{◌≡◌, IfOk};
ghost use Rattle.page_http.specs.Replies.{IsSendable};
ghost use Rattle.page_office.specs.Replies as spec;

use page_datum::Shown;
use page_http::{Allow, Reply};
use page_io::{Bytes, Memory, Text};
use std::alloc::Global;

// The reply where the files are refused: 422, with the lines of the refusal.
pub(crate) fn refused_reply<W: Shown>(alloc: Global, why: &W, number: u64) -> Result<Reply, Memory>
    ensures value { IfOk result (λ reply. reply ≡ spec.refused_reply (W.text why.now) number) }
    ensures sendable { IfOk result IsSendable }
{
    let mut lines = Text::new(alloc);
    why.lines(&mut lines)?;
    Ok(Reply {
        status: 422,
        html: false,
        number,
        allow: Allow::Nothing,
        body: Bytes::from(lines.into_string().into_bytes()),
    })
}

// The reply where the folder failed: 500.
pub(crate) fn read_fault_reply(alloc: Global, number: u64) -> Result<Reply, Memory>
    ensures value { IfOk result (λ reply. reply ≡ spec.read_fault_reply number) }
    ensures sendable { IfOk result IsSendable }
{
    Ok(Reply {
        status: 500,
        html: false,
        number,
        allow: Allow::Nothing,
        body: Bytes::copy_of(alloc, b"read fault\n")?,
    })
}
