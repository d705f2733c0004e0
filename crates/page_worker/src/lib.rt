// A worker serves the links that come through a door, one after another, until so many were served,
// none is to come, or the door fails.
#![tactic(auto)]

mod at_door;
mod ended;
mod page_worker;
mod sent;
#[cfg(test)]
mod tests;
mod work_end;

pub use at_door::AtDoor;
pub use ended::Ended;
pub use page_worker::PageWorker;
pub use work_end::WorkEnd;
