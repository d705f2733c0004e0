// Inference: the least chart of a set of templates, which covers every path of its roots.
#![tactic(auto)]

mod calls;
mod chart;
mod check;
mod conflict;
mod finding;
mod inferring;
mod kept;
mod outgoing;
mod queue;
mod refusal;
mod roots;
mod set_refused;
mod solver;

pub use chart::Chart;
pub use inferring::{LIMIT, infer};
pub use set_refused::SetRefused;
