ghost use Rattle.std.specs.Prelude.{◌≡◌, ◌≢◌, ◌++◌, ◌∷◌, [], IfOk, codes};
ghost use Rattle.page_datum.specs.Kinds.{data_refusal};
ghost use Rattle.page_http.specs.Refusals.{NamesMethods, refusal_reply, data_reply};
ghost use Rattle.page_http.specs.Refusals as spec;
ghost use Rattle.page_http.specs.Replies.{IsReplyStatus, IsSendable};

use crate::reply::{Allow, Reply, phrase};
use page_datum::DataRefused;
use page_io::{Bytes, Memory};
use std::alloc::Global;

// Why a request that was read is refused, before its data are looked at.
#[derive(Clone, Copy)]
pub(crate) enum AskRefusal {
    /// 400: `Set-At-Least` is no number.
    BadRequest,
    /// 404: the path leads nowhere.
    NotFound,
    /// 405: where the path leads has other methods.
    MethodNotAllowed(Allow),
    /// 409: `Set-At-Least` is this number, and the set's is less.
    Behind(u64),
    /// 415: the posted body is of another type.
    UnsupportedMediaType,
}

/// The reply of a status alone: its body is the phrase of the status and a line feed. So are the
/// replies to what `read_request` refuses. Fails only if allocation fails.
pub fn phrase_reply(alloc: Global, status: u16, number: u64) -> Result<Reply, Memory>
    requires { IsReplyStatus status }
    ensures value { IfOk result (λ reply. reply ≡ spec.phrase_reply status number) }
    ensures sendable { status ≢ 405 → IfOk result IsSendable }
{
    plain_reply(alloc, status, Allow::Nothing, number)
}

// The reply of a status and the methods of a route.
fn plain_reply(alloc: Global, status: u16, allow: Allow, number: u64) -> Result<Reply, Memory>
    requires { IsReplyStatus status }
    ensures { IfOk result (λ reply. reply ≡ spec.plain_reply status allow number) }
{
    let phrase = phrase(status);
    let body = format!(in alloc; "{phrase}\n")?;
    Ok(Reply {
        status,
        html: false,
        number,
        allow,
        body: Bytes::from(body.into_bytes()),
    })
}

// The reply to a refused request.
pub(crate) fn refused(alloc: Global, refusal: AskRefusal, number: u64) -> Result<Reply, Memory>
    requires { NamesMethods refusal }
    ensures value { IfOk result (λ reply. reply ≡ refusal_reply refusal number) }
    ensures sendable { IfOk result IsSendable }
{
    match refusal {
        AskRefusal::BadRequest => phrase_reply(alloc, 400, number),
        AskRefusal::NotFound => phrase_reply(alloc, 404, number),
        AskRefusal::MethodNotAllowed(allow) => plain_reply(alloc, 405, allow, number),
        AskRefusal::Behind(at_least) => behind(alloc, at_least, number),
        AskRefusal::UnsupportedMediaType => phrase_reply(alloc, 415, number),
    }
}

// The reply where the set is older than was asked for.
fn behind(alloc: Global, at_least: u64, number: u64) -> Result<Reply, Memory>
    ensures { IfOk result (λ reply. reply ≡ spec.behind_reply at_least number) }
{
    let body = format!(in alloc; "behind {at_least} {number}\n")?;
    Ok(Reply {
        status: 409,
        html: false,
        number,
        allow: Allow::Nothing,
        body: Bytes::from(body.into_bytes()),
    })
}

// The reply where a body is no data.
pub(crate) fn no_data(alloc: Global, why: &DataRefused, number: u64) -> Result<Reply, Memory>
    ensures value { IfOk result (λ reply. reply ≡ data_reply why.now number) }
    ensures sendable { IfOk result IsSendable }
{
    let body = format!(in alloc; "data {why}\n")?;
    Ok(Reply {
        status: 400,
        html: false,
        number,
        allow: Allow::Nothing,
        body: Bytes::from(body.into_bytes()),
    })
}
