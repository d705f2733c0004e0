// The parser of template files.
#![tactic(auto)]

mod action;
mod action_end;
mod control;
mod definition;
mod ending;
mod laws;
mod parse;
mod pipe;
mod reader;
mod refused;
mod transition;
mod variable;

pub use laws::one_file;
pub use parse::parse_file;
pub use refused::FileRefused;
pub use tpl_build::{Def, File, gather};
pub use tpl_pipe::ParseRefused;
