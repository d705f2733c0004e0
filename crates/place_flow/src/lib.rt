// The transfer of places along the edges of templates, what makes it right, and the errors of a path.
#![tactic(auto)]

mod covering_laws;
mod flows;
mod laws;
mod naming;
mod point_state;
mod points;
mod predefined;
mod step;
mod transferring;
mod uses;

pub use covering_laws::chart_covers;
pub use flows::{Flows, flows_of};
pub use laws::{step_covers, step_keeps_order, step_keeps_valid};
pub use point_state::{PointState, is_point_state_below, join_point_states};
pub use points::{point_count, point_number};
pub use predefined::Predefined;
pub use step::EdgeStep;
pub use transferring::{may_use, transfer};
pub use uses::{EscaperUse, escaper_use};
