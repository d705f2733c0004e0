// The pipes of template files: their grammar, and reading one a symbol at a time.
#![tactic(auto)]

mod level;
mod pipe_state;
mod reading;
mod refused;
mod variables;

pub use pipe_state::{Current, Level, PipeState};
pub use reading::{finish, pipe_start, read};
pub use refused::ParseRefused;
pub use variables::Variables;
