// The adapters that connect links, doors and nets to the TCP sockets of the system. They tell nothing of what a client
// sends or gets.
#![tactic(auto)]

mod accepting;
mod connection;
mod connections;
mod head;
mod limit;
mod sent;
mod table;
mod tcp_door;
mod tcp_link;
mod tcp_net;
#[cfg(test)]
mod tests;
mod tries;

pub use tcp_door::TcpDoor;
pub use tcp_link::TcpLink;
pub use tcp_net::TcpNet;
