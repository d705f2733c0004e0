// The tokens of template files.
#![tactic(auto)]

mod action;
mod bytes;
mod cursor;
mod escape;
mod laws;
mod lexeme;
mod lexer;
mod number;
mod refused;
mod string;
mod text;
mod token;

pub use laws::one_answer;
pub use lexer::{MAX_TEXT, fits, tokens};
pub use refused::TokenRefused;
pub use token::{Token, TokenKind};
