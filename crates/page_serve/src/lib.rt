// The command `serve`, over any devices: a worker for each door of a net, and a summary of what they
// did.
#![tactic(auto)]

mod doors;
mod ends;
mod seating;
mod serving;
mod stop;
mod summary;
#[cfg(test)]
mod tests;
mod workers;

pub use serving::serve;
pub use stop::ServeStop;
