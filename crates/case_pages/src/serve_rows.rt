// The rows of `serve`. A subject of `case_table` cannot make this call: a method of a trait may hand no handle to threads.
use crate::changing_folder::ChangingFolder;
use crate::commands::{files_of, output_of, put_end, sink_of_lines, words_of};
use crate::net::{net_of, put_links};
use crate::settings::{fails_of, other_files_of, serve_settings_of};
use case_table::{CaseOutput, CaseStop, count_of, list_of, text_of};
use page_datum::{Datum, Entries};
use page_io::{Bytes, List, MemFolder, MemSource, Text};
use page_net::{MemLink, MemNet};
use page_spawn::InlineSpawner;
use page_tool::{Status, run};
use set_publisher::PackSeats;
use std::alloc::Global;
use std::sync::Wait;
use std::thread::Threads;

/// Whether a table is one of `serve`: its first group says so.
pub fn is_of_serve(table: &Datum) -> bool {
    let Datum::List(groups) = table else {
        return false;
    };
    match groups.as_slice().first() {
        Some(Datum::Dict(group)) => match group.get("call") {
            Some(Datum::Text(call)) => call.as_str() == "page_tool/serve",
            _ => false,
        },
        _ => false,
    }
}

/// Runs the cases of a table of `serve`, whose rows have no forms. The report has the cases that differ, and the groups that have
/// not as many as they say, with the name of the table; it is empty where the table holds. It may wait.
pub fn serve_report_of<R: Threads + Wait + Sync>(
    alloc: Global,
    rt: &R,
    name: &str,
    table: &Datum,
) -> Result<Text, CaseStop> {
    let mut report = CaseOutput::new(alloc);
    for group in list_of(table)? {
        match group {
            Datum::Dict(group) => put_group(rt, &mut report, name, group)?,
            _ => return Err(CaseStop::Form),
        }
    }
    report.finish()
}

// Runs the cases of a group.
fn put_group<R: Threads + Wait + Sync>(
    rt: &R,
    report: &mut CaseOutput,
    name: &str,
    group: &Entries,
) -> Result<(), CaseStop> {
    let rows = list_of(entry_of(group, "rows")?)?;
    let (cases, count) = (rows.len() as u64, count_of(entry_of(group, "count")?)?);
    if cases != count {
        report.put_made(format!(in report.alloc();
            "{name}: a group has {cases} cases and says {count}\n"
        ));
    }
    for row in rows {
        put_row(rt, report, name, list_of(row)?)?;
    }
    Ok(())
}

fn entry_of<'g>(group: &'g Entries, key: &str) -> Result<&'g Datum, CaseStop> {
    match group.get(key) {
        Some(entry) => Ok(entry),
        None => Err(CaseStop::Form),
    }
}

// Runs a case, and writes what it gives where something else is wanted.
fn put_row<R: Threads + Wait + Sync>(
    rt: &R,
    report: &mut CaseOutput,
    name: &str,
    row: &[Datum],
) -> Result<(), CaseStop> {
    let [files, words, settings, wanted] = row else {
        return Err(CaseStop::Form);
    };
    let mut out = CaseOutput::new(report.alloc());
    put_served(rt, &mut out, list_of(files)?, words, list_of(settings)?)?;
    let given = out.finish()?;
    let (given, wanted) = (given.as_str(), text_of(wanted)?);
    if given != wanted {
        report.put_made(format!(in report.alloc();
            "{name}: page_tool/serve\n  gives  {given:?}\n  wanted {wanted:?}\n"
        ));
    }
    Ok(())
}

// Writes how a command with these words ends over devices in memory, and what its links got.
fn put_served<R: Threads + Wait + Sync>(
    rt: &R,
    out: &mut CaseOutput,
    files: &[Datum],
    words: &Datum,
    settings: &[Datum],
) -> Result<(), CaseStop> {
    let alloc = out.alloc();
    let settings = serve_settings_of(settings)?;
    let words = words_of(alloc, words)?;
    let folder = folder_of(alloc, files, settings)?;
    let mut net = net_of(alloc, settings)?;
    put_run(rt, out, words.as_slice(), folder, &mut net, settings)?;
    put_links(out, &net);
    Ok(())
}

// Writes how a command ends. Its workers run one after another.
fn put_run<R: Threads + Wait + Sync>(
    rt: &R,
    out: &mut CaseOutput,
    words: &[String],
    folder: RowFolder,
    net: &mut MemNet<MemLink>,
    settings: &[Datum],
) -> Result<(), CaseStop> {
    let alloc = out.alloc();
    let mut input = failing_input(alloc)?;
    let mut output = output_of(alloc, settings)?;
    let mut lines = sink_of_lines(alloc)?;
    let fails = fails_of(alloc, settings, "spawner fails")?;
    let mut spawner: InlineSpawner<R> = InlineSpawner::new(fails);
    let mut seats = PackSeats::new(fails_of(alloc, settings, "seats fail")?);
    let (status, _) = run(
        alloc,
        rt,
        words,
        folder,
        &mut input,
        &mut output,
        &mut lines,
        net,
        &mut spawner,
        &mut seats,
    );
    if status == Status::Memory {
        return Err(CaseStop::Memory);
    }
    put_end(out, status, output.taken(), lines.taken());
    Ok(())
}

// An input that fails at the first read: `serve` reads none.
fn failing_input(alloc: Global) -> Result<MemSource, CaseStop> {
    let mut fails = List::new(alloc);
    fails.push(1)?;
    Ok(MemSource::new(Bytes::new(alloc), 1, fails))
}

// A folder whose files may change twice.
type RowFolder = ChangingFolder<ChangingFolder<MemFolder, MemFolder>, MemFolder>;

// The folder of files. It has other files from the second listing on, and from the third one on, where settings have them.
fn folder_of(alloc: Global, files: &[Datum], settings: &[Datum]) -> Result<RowFolder, CaseStop> {
    let fails = fails_of(alloc, settings, "folder fails")?;
    let first = MemFolder::new(files_of(alloc, files)?, fails);
    let (listings, later) = change_of(alloc, settings, "files later", 1)?;
    let changing = ChangingFolder::new(first, listings, later);
    let (listings, last) = change_of(alloc, settings, "files last", 2)?;
    Ok(ChangingFolder::new(changing, listings, last))
}

// The files of a setting, and after how many listings the folder has them: after so many, or never without the setting.
fn change_of(
    alloc: Global,
    settings: &[Datum],
    name: &str,
    listings: u64,
) -> Result<(u64, MemFolder), CaseStop> {
    let (listings, files) = match other_files_of(settings, name)? {
        Some(files) => (listings, files_of(alloc, files)?),
        None => (u64::MAX, List::new(alloc)),
    };
    Ok((listings, MemFolder::new(files, List::new(alloc))))
}
