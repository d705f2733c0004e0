// Charts of places: a summary for each pair of a template and a place in which it is entered, and what the least chart is.
#![tactic(auto)]

mod conflict;
mod inner_states;
mod laws;
mod numbers;
mod search;
mod summaries;
mod summary;
mod through;

pub use conflict::has_conflict;
pub use inner_states::InnerStates;
pub use laws::{conflict_everywhere, conflict_free_closes, one_chart, one_count, root_is_chart};
pub use summaries::Summaries;
pub use summary::{Summary, blank, empty_summary, point_state_at};
pub use through::{given_by, through_step};
