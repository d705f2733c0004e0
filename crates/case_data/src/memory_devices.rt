use crate::device_calls::{put_calls, put_quoted, put_reads, put_write, put_writes};
use crate::texts::put_texts;
use case_table::{CaseOutput, CaseRow, CaseStop, bytes_of, counts_of, list_of, text_of};
use page_datum::Datum;
use page_io::{
    List, MemFile, MemFolder, MemSink, MemSource, SureFolder, SureSink, SureSource, Text,
};
use std::alloc::Global;

/// Writes what a call of `page_io` gives: the answers of a device over memory to the calls of a row, one after another, or
/// what a text or a list has. A step of 0 counts as 1 for each device.
pub fn put_devices(out: &mut CaseOutput, call: &str, row: &CaseRow) -> Result<(), CaseStop> {
    match call {
        "MemSource/read" => put_source(out, row, false),
        "MemSource/read_up_to" => put_source(out, row, true),
        "SureSource/read" => {
            let bytes = row.bytes(out.alloc(), 0)?;
            let mut source = SureSource::new(bytes, row.count(1)?.max(1));
            put_reads(out, &mut source, false, row.list(2)?)
        }
        "MemSink/write" => put_sink(out, row, false),
        "MemSink/write_all" => put_sink(out, row, true),
        "SureSink/write" => put_sure_sink(out, row, false),
        "SureSink/write_all" => put_sure_sink(out, row, true),
        "MemFolder" | "SureFolder" => put_folder(out, call, row),
        call => put_texts(out, call, row),
    }
}

// Writes what a source gives of the bytes of a row, with its step, its failing calls and its reads.
fn put_source(out: &mut CaseOutput, row: &CaseRow, is_whole: bool) -> Result<(), CaseStop> {
    let fails = counts_of(out.alloc(), row.list(2)?)?;
    let bytes = row.bytes(out.alloc(), 0)?;
    let mut source = MemSource::new(bytes, row.count(1)?.max(1), fails);
    put_reads(out, &mut source, is_whole, row.list(3)?)
}

// Writes what a sink answers with the room of a row, its step, its failing calls and its writes, and after each all that it
// has.
fn put_sink(out: &mut CaseOutput, row: &CaseRow, is_whole: bool) -> Result<(), CaseStop> {
    let (room, step) = (row.count(0)?, row.count(1)?);
    let fails = counts_of(out.alloc(), row.list(2)?)?;
    let mut sink = MemSink::new(out.alloc(), room, step.max(1), fails)?;
    for text in row.list(3)? {
        put_write(out, &mut sink, is_whole, text_of(text)?.as_bytes());
        out.put(" ");
        put_quoted(out, sink.taken());
    }
    Ok(())
}

// Writes what a sink answers that never fails, with its step and its writes.
fn put_sure_sink(out: &mut CaseOutput, row: &CaseRow, is_whole: bool) -> Result<(), CaseStop> {
    let mut sink = SureSink::new(row.count(0)?.max(1));
    put_writes(out, &mut sink, is_whole, row.list(1)?)
}

// Writes what a folder answers of the files of a row, with its failing calls, where it has some, and its calls.
fn put_folder(out: &mut CaseOutput, call: &str, row: &CaseRow) -> Result<(), CaseStop> {
    let files = files_of(out.alloc(), row.list(0)?)?;
    if call == "SureFolder" {
        return put_calls(out, &mut SureFolder::new(files), row.list(1)?);
    }
    let fails = counts_of(out.alloc(), row.list(1)?)?;
    put_calls(out, &mut MemFolder::new(files, fails), row.list(2)?)
}

// Files, each a list of its directory, its name and its bytes.
fn files_of(alloc: Global, files: &[Datum]) -> Result<List<MemFile>, CaseStop> {
    let mut all = List::new(alloc);
    for file in files {
        match list_of(file)? {
            [dir, name, bytes] => all.push(mem_file(alloc, text_of(dir)?, name, bytes)?)?,
            _ => return Err(CaseStop::Form),
        }
    }
    Ok(all)
}

/// A file of a directory, with its name and its bytes as a row has them.
pub fn mem_file(
    alloc: Global,
    dir: &str,
    name: &Datum,
    bytes: &Datum,
) -> Result<MemFile, CaseStop> {
    Ok(MemFile {
        dir: Text::copy_of(alloc, dir)?,
        name: Text::copy_of(alloc, text_of(name)?)?,
        bytes: bytes_of(alloc, bytes)?,
    })
}
