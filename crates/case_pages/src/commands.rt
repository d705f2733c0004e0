use crate::settings::{fails_of, settings_of, step_of};
use case_data::mem_file;
use case_table::{CaseOutput, CaseRow, CaseStop, pair_of, text_of};
use page_datum::Datum;
use page_io::{List, MemFile, MemFolder, MemSink, MemSource};
use page_tool::{Status, begins_serve, run_files};
use std::alloc::Global;

// The directory of the files of a row.
const DIR: &str = "D";

// How many bytes the output and the lines for people have room for.
const ROOM: u64 = 10_000;

// How many bytes a device gives or takes at a time where no setting says it.
const INPUT_STEP: u64 = 3;

const OUTPUT_STEP: u64 = 100;

const LINES_STEP: u64 = 5;

/// Writes what a call of `page_tool` gives: how a command ends and what it writes, and the number of a status.
pub fn put_commands(out: &mut CaseOutput, call: &str, row: &CaseRow) -> Result<(), CaseStop> {
    match call {
        "run" => put_run(out, row),
        "code" => {
            out.put_count(status_of(row.text(0)?)?.code() as u64);
            Ok(())
        }
        _ => Err(CaseStop::Form),
    }
}

// Writes what a command gives: the row has the files, the words, the input and the settings.
fn put_run(out: &mut CaseOutput, row: &CaseRow) -> Result<(), CaseStop> {
    let alloc = out.alloc();
    let settings = settings_of(row.list(3)?)?;
    let words = words_of(alloc, row.part(1)?)?;
    let folder = folder_of(alloc, row.list(0)?, settings)?;
    let input = input_of(alloc, row, settings)?;
    let output = output_of(alloc, settings)?;
    put_command(out, words.as_slice(), folder, input, output)
}

// Writes how a command over these devices ends: the status with its number, the output, and the lines for people.
fn put_command(
    out: &mut CaseOutput,
    words: &[String],
    folder: MemFolder,
    input: MemSource,
    output: MemSink,
) -> Result<(), CaseStop> {
    // `serve` waits: its rows are those of `serve_rows.rt`.
    if begins_serve(words) {
        return Err(CaseStop::Form);
    }
    let alloc = out.alloc();
    let (mut input, mut output) = (input, output);
    let mut lines = sink_of_lines(alloc)?;
    let (status, _) = run_files(alloc, words, folder, &mut input, &mut output, &mut lines);
    if status == Status::Memory {
        return Err(CaseStop::Memory);
    }
    put_end(out, status, output.taken(), lines.taken());
    Ok(())
}

/// Writes a status with its number, the output, and the lines for people.
pub fn put_end(out: &mut CaseOutput, status: Status, output: &[u8], lines: &[u8]) {
    let code = status.code();
    let output = std::str::from_utf8(output).unwrap_or("not UTF-8");
    let lines = std::str::from_utf8(lines).unwrap_or("not UTF-8");
    out.put_made(format!(in out.alloc(); "status {code}\nout: {output}\nerr: {lines}"));
}

/// The words of a command: a list of them, or a text with blanks between them.
pub fn words_of(alloc: Global, words: &Datum) -> Result<Vec<String>, CaseStop> {
    let mut all = Vec::new(alloc);
    match words {
        Datum::List(words) => {
            for word in words.as_slice() {
                all.push(String::from_str(alloc, text_of(word)?)?)?;
            }
        }
        words => {
            for word in text_of(words)?.split_whitespace() {
                all.push(String::from_str(alloc, word)?)?;
            }
        }
    }
    Ok(all)
}

// The folder of files.
fn folder_of(alloc: Global, files: &[Datum], settings: &[Datum]) -> Result<MemFolder, CaseStop> {
    let fails = fails_of(alloc, settings, "folder fails")?;
    Ok(MemFolder::new(files_of(alloc, files)?, fails))
}

/// Files of the directory `D`, each a list of its name and its bytes.
pub fn files_of(alloc: Global, files: &[Datum]) -> Result<List<MemFile>, CaseStop> {
    let mut all = List::new(alloc);
    for file in files {
        let (name, bytes) = pair_of(file)?;
        all.push(mem_file(alloc, DIR, name, bytes)?)?;
    }
    Ok(all)
}

fn input_of(alloc: Global, row: &CaseRow, settings: &[Datum]) -> Result<MemSource, CaseStop> {
    let step = step_of(settings, "input step", INPUT_STEP)?;
    let fails = fails_of(alloc, settings, "input fails")?;
    Ok(MemSource::new(row.bytes(alloc, 2)?, step.max(1), fails))
}

/// The output of a command.
pub fn output_of(alloc: Global, settings: &[Datum]) -> Result<MemSink, CaseStop> {
    let step = step_of(settings, "output step", OUTPUT_STEP)?;
    let fails = fails_of(alloc, settings, "output fails")?;
    Ok(MemSink::new(alloc, ROOM, step.max(1), fails)?)
}

/// Where the lines for people go.
pub fn sink_of_lines(alloc: Global) -> Result<MemSink, CaseStop> {
    Ok(MemSink::new(alloc, ROOM, LINES_STEP, List::new(alloc))?)
}

fn status_of(name: &str) -> Result<Status, CaseStop> {
    match name {
        "Ok" => Ok(Status::Ok),
        "SetRefused" => Ok(Status::SetRefused),
        "Usage" => Ok(Status::Usage),
        "ExecFault" => Ok(Status::ExecFault),
        "DataRefused" => Ok(Status::DataRefused),
        "ReadFault" => Ok(Status::ReadFault),
        "WriteFault" => Ok(Status::WriteFault),
        "NetFault" => Ok(Status::NetFault),
        "SpawnFault" => Ok(Status::SpawnFault),
        "SeatFault" => Ok(Status::SeatFault),
        "NoTemplate" => Ok(Status::NoTemplate),
        "Memory" => Ok(Status::Memory),
        _ => Err(CaseStop::Form),
    }
}
