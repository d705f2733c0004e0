// Derivations: a step that raises a chart along an edge, the log of what each point was given, and the first conflict.
#![tactic(auto)]

mod conflict;
mod derivation;
mod derived;
mod enter;
mod follow;
mod log;
mod noting;
mod pair_edge;
mod raise_end;

pub use conflict::{FirstConflict, Why};
pub use derivation::{Derivation, DerivedFrom};
pub use derived::Derived;
pub use follow::Propagated;
pub use log::Log;
