// Connections: both ends of one, the doors that connections come through, and the nets that give doors; and their
// versions over memory.
#![tactic(auto)]

mod calls;
mod copying;
mod door;
mod gate_link;
mod link;
mod loans;
mod mem_door;
mod mem_link;
mod mem_net;
mod net;
mod sent;
mod sure_door;
mod sure_link;
mod sure_net;
#[cfg(test)]
mod tests;

pub use door::{Came, Door};
pub use gate_link::GateLink;
pub use link::{Link, write_all};
pub use mem_door::MemDoor;
pub use mem_link::MemLink;
pub use mem_net::MemNet;
pub use net::Net;
pub use sent::Sent;
pub use sure_door::SureDoor;
pub use sure_link::SureLink;
pub use sure_net::SureNet;
