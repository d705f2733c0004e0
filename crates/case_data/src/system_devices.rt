use crate::device_calls::{put_calls, put_reads, put_writes};
use case_table::{CaseOutput, CaseRow, CaseStop, list_of, text_of};
use page_datum::Datum;
use page_io::{Directory, ReadSource, WriteSink};
use std::fs::{self, File};
use std::io;
use std::os::unix::fs::symlink;

/// Whether a call of `page_io` is one of a device of the system.
pub fn is_of_system(call: &str) -> bool {
    call.starts_with("Directory") || call.starts_with("ReadSource") || call.starts_with("WriteSink")
}

/// Writes what a call of `page_io` gives with a device of the system: the answers to the calls of a row, one after another.
/// The row has the folder that is made for it, and taken away again, and what is made in it.
pub fn put_system(
    rt: &HostRuntime,
    out: &mut CaseOutput,
    call: &str,
    row: &CaseRow,
) -> Result<(), CaseStop> {
    let folder = row.text(0)?;
    if fs::create_dir(rt, folder).is_err() {
        out.put("(the folder cannot be made)");
        return Ok(());
    }
    let made = put_made(rt, out, call, row);
    if fs::remove_dir_all(rt, folder).is_err() {
        out.put("(the folder cannot be taken away)");
    }
    made
}

fn put_made(
    rt: &HostRuntime,
    out: &mut CaseOutput,
    call: &str,
    row: &CaseRow,
) -> Result<(), CaseStop> {
    for thing in row.list(1)? {
        let made = match list_of(thing)? {
            [kind, path, of] => make(rt, text_of(kind)?, text_of(path)?, text_of(of)?),
            _ => return Err(CaseStop::Form),
        };
        if made.is_err() {
            out.put("(this cannot be made)");
        }
    }
    match call {
        "Directory" => put_calls(out, &mut Directory::new(rt), row.list(2)?),
        _ => put_stream(rt, out, call, row.text(2)?, row.list(3)?),
    }
}

// Makes a folder, a file that has a text, or a link to a path.
fn make(rt: &HostRuntime, kind: &str, path: &str, of: &str) -> io::Result<()> {
    match kind {
        "folder" => fs::create_dir(rt, path),
        "file" => fs::write(rt, path, of),
        _ => symlink(rt, of, path),
    }
}

// Writes what a file gives that is read to limits, that is written, or that is open for reading alone and is to be written.
fn put_stream(
    rt: &HostRuntime,
    out: &mut CaseOutput,
    call: &str,
    path: &str,
    calls: &[Datum],
) -> Result<(), CaseStop> {
    match call {
        "ReadSource/read_up_to" => put_read(out, fs::open(rt, path), calls),
        "WriteSink/write_all" => {
            put_written(out, fs::create(rt, path), true, calls)?;
            put_content(rt, out, path)
        }
        "WriteSink/write" => {
            put_written(out, fs::create(rt, path), false, calls)?;
            put_content(rt, out, path)
        }
        "WriteSink/write of a reader" => put_written(out, fs::open(rt, path), false, calls),
        _ => Err(CaseStop::Form),
    }
}

fn put_read(
    out: &mut CaseOutput,
    opened: io::Result<File>,
    calls: &[Datum],
) -> Result<(), CaseStop> {
    match opened {
        Ok(file) => put_reads(out, &mut ReadSource::new(file), true, calls),
        Err(_) => Err(CaseStop::Form),
    }
}

fn put_written(
    out: &mut CaseOutput,
    opened: io::Result<File>,
    is_whole: bool,
    calls: &[Datum],
) -> Result<(), CaseStop> {
    match opened {
        Ok(file) => put_writes(out, &mut WriteSink::new(file), is_whole, calls),
        Err(_) => Err(CaseStop::Form),
    }
}

// Writes what a file has.
fn put_content(rt: &HostRuntime, out: &mut CaseOutput, path: &str) -> Result<(), CaseStop> {
    match fs::read_to_string(rt, path) {
        Ok(content) => {
            out.put(": ");
            out.put(content.as_str());
            Ok(())
        }
        Err(_) => Err(CaseStop::Form),
    }
}
