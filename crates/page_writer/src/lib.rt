// Pages by a chart: what a page gets at each node is known before there is any data, and a page copies it.
#![tactic(auto)]

mod composing;
mod output;
mod outputs;
mod values;
mod writer;

pub use composing::{Composed, compose};
pub use output::Output;
pub use outputs::outputs_of;
