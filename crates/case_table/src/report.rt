use crate::case_row::{CaseRow, list_of};
use crate::case_stop::CaseStop;
use crate::difference::put_difference;
use crate::expand::{cases_of, expanded};
use crate::group::{call_of, count_in, given_of, has_source, rows_of};
use crate::output::CaseOutput;
use page_datum::{Datum, Entries, Items};
use page_io::Text;
use std::alloc::Global;

/// Who makes the calls of a table.
pub trait Subject {
    /// Writes what a call gives for a row. The call is the name of a crate, a slash and the name of a call.
    fn answer(&self, out: &mut CaseOutput, call: &str, row: &CaseRow) -> Result<(), CaseStop>;
}

/// Runs the cases of a table, which is a list of groups. The report has the cases that differ, and the groups whose rows or
/// counts are not as they say, with the name of the table; it is empty where the table holds.
pub fn report_of<S: Subject>(
    alloc: Global,
    name: &str,
    table: &Datum,
    subject: &S,
) -> Result<Text, CaseStop> {
    let mut report = CaseOutput::new(alloc);
    let mut number: u64 = 0;
    for group in list_of(table)? {
        number = number.saturating_add(1);
        match group {
            Datum::Dict(group) => put_group(&mut report, (name, number), group, subject)?,
            _ => return Err(CaseStop::Form),
        }
    }
    report.finish()
}

// Runs the cases of a group, which has the name of its table and its number there.
fn put_group<S: Subject>(
    report: &mut CaseOutput,
    at: (&str, u64),
    group: &Entries,
    subject: &S,
) -> Result<(), CaseStop> {
    let (call, given) = (call_of(group)?, given_of(group)?);
    if !has_source(group)? {
        return Err(CaseStop::Form);
    }
    let mut cases: u64 = 0;
    for row in rows_of(group)? {
        let Datum::List(row) = row else {
            return Err(CaseStop::Form);
        };
        if given.fits(row.len()) {
            cases = cases.saturating_add(run_row(report, subject, call, row)?);
        } else {
            put_width(report, at, row.len());
        }
    }
    put_count(report, at, cases, count_in(group)?);
    Ok(())
}

// Writes that a row of a group has not the parts that the group names.
fn put_width(report: &mut CaseOutput, at: (&str, u64), parts: usize) {
    let (name, number) = at;
    report.put(name);
    report.put_made(format!(in report.alloc();
        ": group {number} has a row of {parts} parts, which are not those that it names\n"
    ));
}

// Writes how many cases a group has, where it says another number.
fn put_count(report: &mut CaseOutput, at: (&str, u64), cases: u64, wanted: u64) {
    if cases != wanted {
        let (name, number) = at;
        report.put(name);
        report.put_made(format!(in report.alloc();
            ": group {number} has {cases} cases and says {wanted}\n"
        ));
    }
}

// Runs the cases of a row, and gives their number.
fn run_row<S: Subject>(
    report: &mut CaseOutput,
    subject: &S,
    call: &str,
    row: &Items,
) -> Result<u64, CaseStop> {
    let cases = cases_of(row);
    for choice in 0..cases {
        let (row, wanted) = case_of(report.alloc(), row, choice)?;
        let given = answer_of(report.alloc(), subject, call, &row)?;
        if given.as_str() != wanted.as_str() {
            put_difference(report, call, &row, given.as_str(), wanted.as_str());
        }
    }
    Ok(cases)
}

// One case of a row. The last part of the row is what is wanted of the call.
fn case_of(alloc: Global, row: &Items, choice: u64) -> Result<(CaseRow, Text), CaseStop> {
    let mut choice = choice;
    let mut parts = expanded(alloc, row, &mut choice)?;
    match parts.pop() {
        Some(Datum::Text(wanted)) => Ok((CaseRow::new(parts), wanted)),
        _ => Err(CaseStop::Form),
    }
}

// What a call gives, or that its row has not the form of the call.
fn answer_of<S: Subject>(
    alloc: Global,
    subject: &S,
    call: &str,
    row: &CaseRow,
) -> Result<Text, CaseStop> {
    let mut out = CaseOutput::new(alloc);
    match subject.answer(&mut out, call, row) {
        Ok(()) => out.finish(),
        Err(CaseStop::Form) => Ok(Text::copy_of(
            alloc,
            "(this row has another form than its call)",
        )?),
        Err(CaseStop::Memory) => Err(CaseStop::Memory),
    }
}
