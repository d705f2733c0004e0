// Requests of HTTP/1.x, cut from bytes, and the bytes of their replies. Heads are what the kit's
// `httparse` takes.
#![tactic(auto)]

mod answer;
mod ask;
mod body_length;
mod body_sink;
mod connection;
mod content;
mod fields;
mod form;
mod laws;
mod number;
mod page;
mod read;
mod refusal;
mod reply;
mod request;
mod routes;
mod unavailable;

pub use answer::{Answer, reply_to};
pub use ask::{Ask, read_ask, read_ask_by};
pub use laws::{answers_exclude, answers_stay, replies_are_responses, requests_have_one_reply};
pub use page::{number_reply, page_reply};
pub use read::{MAX_BODY, MAX_FIELDS, MAX_HEAD, ReadOne, read_request};
pub use refusal::phrase_reply;
pub use reply::{Allow, Reply, is_reply_status, reply_bytes};
pub use request::{AtLeast, BodyKind, Request};
pub use routes::{Destination, Routes};
pub use unavailable::Unavailable;
