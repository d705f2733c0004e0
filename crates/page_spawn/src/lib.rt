// Workers, and what runs them: each in a thread of its own behind a start gate, or one after another.
#![tactic(auto)]

mod gate;
mod in_turn;
mod inline;
mod joining;
mod spawner;
mod start;
mod sure;
#[cfg(test)]
mod tests;
mod threads;
mod turn;
mod worker;

pub use inline::InlineSpawner;
pub use spawner::{SpawnStop, Spawner};
pub use sure::SureSpawner;
pub use threads::ThreadSpawner;
pub use worker::Worker;
