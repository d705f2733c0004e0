// The symbols of template files: their tokens with names, lines and no comments, as the grammar of trees reads them.
#![tactic(auto)]

mod func;
mod joining;
mod kind;
mod line;
mod name;
mod stream;
mod symbol;
mod word;

pub use func::Func;
pub use line::{TextEnd, line_of, text_end};
pub use stream::symbols;
pub use symbol::{Seam, Symbol, SymbolKind};
pub use word::Word;
