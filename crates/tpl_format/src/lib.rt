// Printing as the functions `print`, `println` and `printf` of templates do: the texts that they make of operands.
#![tactic(auto)]

mod directive;
mod fill;
mod format;
mod laws;
mod limit;
mod number;
mod operand;
mod printing;
mod verb;

pub use format::printf;
pub use laws::formats_are_pieces;
pub use printing::print;
