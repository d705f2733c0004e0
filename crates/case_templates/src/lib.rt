// The calls of tables of cases on tokens, symbols, template files, their trees, printed trees and executions.
#![tactic(auto)]

mod events;
mod executions;
mod files;
mod forests;
mod nodes;
mod pipes;
mod printed;
mod symbols;
mod tokens;
mod trees;

pub use executions::put_executions;
pub use files::{forest_of, put_files};
pub use printed::put_printed;
pub use symbols::put_symbols;
pub use tokens::put_tokens;
pub use trees::put_trees;
