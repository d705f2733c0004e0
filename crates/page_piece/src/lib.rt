// The pieces of a script or a style, as the tokens of a page show them.
#![tactic(auto)]

mod piece;

pub use piece::{Piece, PieceKind};
