// Tables of replacements of characters, and the call that applies one to each character of a text.
#![tactic(auto)]

mod replacing;
mod run;
mod table;

pub use replacing::{push_replaced, replace};
pub use run::run_len;
pub use table::Table;
