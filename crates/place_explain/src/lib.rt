// The explanation of a chart: the pairs that a pair reaches, each with its places and what is done in its holes.
#![tactic(auto)]

mod chains;
mod explaining;
mod laws;
mod lines;
mod numbers;
mod order;
mod reached;

pub use chains::push_chain;
pub use explaining::explain;
pub use laws::one_text;
