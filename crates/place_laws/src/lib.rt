// Theorems about inference: what is derived comes along paths, conflicts have errors, and a set with a chart has no error.
#![tactic(auto)]

mod exact_laws;
mod path_laws;
mod shown_laws;

pub use exact_laws::{
    charted_sets_are_not_refused, charted_sets_have_no_error,
    conflict_free_sets_have_no_other_error, ends_are_refused_alone,
    error_free_logs_have_no_conflict,
};
pub use path_laws::{
    edges_meet_at_controls, every_conflict_has_error, every_member_has_a_path,
    every_root_has_a_path,
};
pub use shown_laws::{every_conflict_is_shown, joins_are_shown, refusals_are_shown};
