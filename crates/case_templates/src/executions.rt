use crate::events::put_event;
use crate::files::forest_of;
use case_table::{CaseOutput, CaseRow, CaseStop, datum_of};
use page_datum::Datum;
use tpl_exec::{ExecStop, HoleStop, Kept, ListSink, execute_into};

/// Writes what a call of `tpl_exec` gives: an execution of the template `a.html` of files, each a list of a name and a
/// text. `execute` has the datum as JSON, `execute_with` as a part of the row, `execute_until` has the number of the event
/// that is refused and how it is, and `count_calls` writes the numbers of calls and of their ends.
pub fn put_executions(out: &mut CaseOutput, call: &str, row: &CaseRow) -> Result<(), CaseStop> {
    let mut list = match call {
        "execute_until" => ListSink::new(out.alloc(), row.count(2)?, stop_of(row.text(3)?)?),
        _ => ListSink::new(out.alloc(), 0, HoleStop::Memory),
    };
    match call {
        "execute_with" => put_execution(out, call, row, row.part(1)?, &mut list),
        "execute" | "execute_until" | "count_calls" => {
            let datum = datum_of(out.alloc(), row.part(1)?)?;
            put_execution(out, call, row, &datum, &mut list)
        }
        _ => Err(CaseStop::Form),
    }
}

fn stop_of(word: &str) -> Result<HoleStop, CaseStop> {
    match word {
        "SinkStop" => Ok(HoleStop::SinkStop),
        "TooLong" => Ok(HoleStop::TooLong),
        "Memory" => Ok(HoleStop::Memory),
        _ => Err(CaseStop::Form),
    }
}

// Writes an execution with a datum, whose events a list gets that is as yet empty.
fn put_execution(
    out: &mut CaseOutput,
    call: &str,
    row: &CaseRow,
    datum: &Datum,
    list: &mut ListSink,
) -> Result<(), CaseStop> {
    let Some(forest) = forest_of(out.alloc(), row.list(0)?)? else {
        out.put("a file is refused");
        return Ok(());
    };
    let Some(root) = forest.find("a.html") else {
        out.put("no template a.html");
        return Ok(());
    };
    let end = execute_into(out.alloc(), &forest, root, datum, list);
    put_list(out, call, list);
    put_end(out, &end);
    Ok(())
}

// Writes what a list has: its events, or how many of them are calls, and how many their ends.
fn put_list(out: &mut CaseOutput, call: &str, list: &ListSink) {
    if call == "count_calls" {
        let (calls, leaves) = counts(list.kept());
        out.put_made(format!(in out.alloc(); "c{calls} .{leaves}"));
        return;
    }
    for event in list.kept() {
        put_event(out, event);
    }
    if !list.is_whole() {
        out.put("not whole ");
    }
}

// Writes a bar, and the steps or why the execution stopped.
fn put_end(out: &mut CaseOutput, end: &Result<u64, ExecStop>) {
    match end {
        Ok(steps) => out.put_made(format!(in out.alloc(); "| {steps}")),
        Err(ExecStop::Fault(fault)) => {
            out.put("| ");
            out.put_fault(fault);
        }
        Err(ExecStop::SinkStop) => out.put("| SinkStop"),
        Err(ExecStop::Memory) => out.put("| Memory"),
    }
}

// How many calls, and how many of their ends, there are among events.
fn counts(kept: &[Kept]) -> (u64, u64) {
    let mut calls: u64 = 0;
    let mut leaves: u64 = 0;
    for event in kept {
        match event {
            Kept::Call(_) => calls = calls.saturating_add(1),
            Kept::Leave => leaves = leaves.saturating_add(1),
            _ => {}
        }
    }
    (calls, leaves)
}
