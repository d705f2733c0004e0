// The pieces of a script, as the tokens of a page show them.
#![tactic(auto)]

mod ends;
mod found;
mod literals;
mod pieces;
mod point;
mod steps;
mod white;

pub use pieces::script_pieces;
