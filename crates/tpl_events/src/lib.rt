// What takes the events of an execution: a sink, and a list that keeps them.
#![tactic(auto)]

mod list_sink;
mod sink;

pub use list_sink::{Kept, ListSink};
pub use sink::{HoleSink, HoleStop};
