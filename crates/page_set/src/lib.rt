// Sets of pages: files of templates, and the pages that they give for data.
#![tactic(auto)]

mod laws;
mod root_page;
mod set;

pub use laws::executions_are_one;
pub use page_check::{Checked, MakeRefused, check_files};
pub use page_datum::MAX_FILE;
pub use set::PageSet;
