// One desk that publishes sets, and viewers that look for the newest one and never wait for it.
#![tactic(auto)]

mod copies;
mod counted;
mod desk;
mod glass;
mod history;
mod known;
mod laws;
mod looked;
mod named;
mod notice;
mod pack_glass;
mod pack_seats;
mod rule;
mod seats;
#[cfg(test)]
mod tests;
mod told;
mod viewer;

pub use desk::Desk;
pub use glass::Glass;
pub use known::Known;
pub use laws::calls_are_acts;
pub use looked::Looked;
pub use named::Named;
pub use notice::Notice;
pub use pack_glass::PackGlass;
pub use pack_seats::PackSeats;
pub use seats::{SeatStop, Seats};
pub use told::Told;
pub use viewer::{View, Viewer};
