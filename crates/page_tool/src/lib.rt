// The commands of the program, over any devices.
#![tactic(auto)]

mod asked;
mod check;
mod explain;
mod input;
mod make;
mod nowhere;
mod program;
mod render;
mod report;
mod sections;
mod serve;
mod serve_words;
mod set;
mod status;
mod stop;
mod tokens;
mod top;
mod words;

pub use serve_words::begins_serve;
pub use status::Status;
pub use top::{run, run_files};
