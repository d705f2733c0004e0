// The pieces of a style, as the tokens of a page show them.
#![tactic(auto)]

mod change;
mod next;
mod part;
mod pieces;
mod reading;
mod state;

pub use reading::style_pieces;
