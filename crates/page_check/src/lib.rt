// The files of a directory, checked: the templates of all of them, and the chart of their roots.
#![tactic(auto)]

mod cause_names;
mod checked;
mod checking;
mod laws;
mod names;
mod path_lines;
mod reading;
mod refusal_lines;
mod refused;
mod root_start;

pub use checked::Checked;
pub use checking::check_files;
pub use laws::error_free_files_are_not_refused;
pub use names::is_partial;
pub use refused::MakeRefused;
pub use root_start::RootStart;
