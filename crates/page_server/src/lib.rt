// Serves a link: its requests are read one after another, and each is answered by the set that the
// viewer sees then, or, where it asks for a reload, by the clerk.
#![tactic(auto)]

mod answer;
mod buffer;
mod end;
mod incoming;
mod laws;
mod link_room;
mod outgoing;
mod pager;
mod respond;
mod send;
mod serve;
#[cfg(test)]
mod tests;
#[cfg(test)]
mod threads;
mod turn;

pub use end::{LinkEnd, LinkWhy};
pub use laws::{pages_are_answered, replies_are_in_order};
pub use link_room::LinkRoom;
pub use serve::{MAX_REQUESTS, serve_link};
