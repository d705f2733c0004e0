// Counterexamples: the error of a set of templates, with the paths on which it stands.
#![tactic(auto)]

mod beginnings;
mod clashing;
mod conflicts;
mod ending;
mod joining;
mod laws;
mod making;
mod met_apart;
mod nodes;
mod ordering;
mod passing;
mod printing;
mod seen;
mod showing;
mod together;
mod unknown;
mod ways_together;

pub use conflicts::{shown_conflict, shown_end};
pub use laws::{only_ends_are_shown, shown_errors_stand};
pub use printing::{choice_text, path_text};
pub use showing::{Choice, Seen, Showing};
