// Tables of cases in the form of `docs/CASES.md`: groups of rows, with what a call is given and what is wanted of it, and
// the report of what differs when a subject makes the calls.
#![tactic(auto)]

mod case_row;
mod case_stop;
mod difference;
mod expand;
mod group;
mod output;
mod report;

pub use case_row::{
    CaseRow, bytes_of, count_of, counts_of, datum_of, list_of, pair_of, text_of, word_of,
};
pub use case_stop::CaseStop;
pub use output::CaseOutput;
pub use report::{Subject, report_of};
