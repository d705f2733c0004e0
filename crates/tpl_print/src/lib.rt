// Trees of templates, printed as one text that reads as the same tree.
#![tactic(auto)]

mod laws;
mod node;
mod pipe;
mod text;
mod tree;

pub use laws::parsed_bodies;
pub use tree::print_tree;
