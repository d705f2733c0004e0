ghost use Rattle.std.specs.Prelude.{◌<◌, ◌^◌, IfOk};

use case_table::{CaseOutput, CaseStop, count_of, list_of, text_of};
use page_datum::Datum;
use page_io::{Bytes, Folder, IoStop, Names, Sink, Source, read_up_to, write_all};
use std::alloc::Global;

// The most bytes that a row may ask to read at once.
const MOST: u64 = 1_000_000;

/// Writes what a source gives into the room of each read, or up to the bytes of each.
pub fn put_reads<S: Source>(
    out: &mut CaseOutput,
    source: &mut S,
    is_whole: bool,
    sizes: &[Datum],
) -> Result<(), CaseStop> {
    for size in sizes {
        let size = size_of(size)?;
        out.put_between(", ");
        let answer = if is_whole {
            read_up_to(out.alloc(), source, size)
        } else {
            read_once(out.alloc(), source, size)
        };
        put_bytes(out, answer);
    }
    Ok(())
}

fn size_of(size: &Datum) -> Result<usize, CaseStop>
    ensures { IfOk result (λ size. size < 2 ^ 63) }
{
    match count_of(size)? {
        size if size <= MOST => Ok(size as usize),
        _ => Err(CaseStop::Form),
    }
}

// What one read into this much room gives.
fn read_once<S: Source>(alloc: Global, source: &mut S, room: usize) -> Result<Bytes, IoStop> {
    let mut buffer = vec![in alloc; 0; room]?;
    let count = source.read(buffer.as_mut_slice())?;
    Ok(Bytes::copy_of(alloc, &buffer.as_slice()[..count])?)
}

/// Writes what a sink answers to each write, or write of all, of these texts.
pub fn put_writes<K: Sink>(
    out: &mut CaseOutput,
    sink: &mut K,
    is_whole: bool,
    texts: &[Datum],
) -> Result<(), CaseStop> {
    for text in texts {
        put_write(out, sink, is_whole, text_of(text)?.as_bytes());
    }
    Ok(())
}

/// Writes what a sink answers to a write, or a write of all.
pub fn put_write<K: Sink>(out: &mut CaseOutput, sink: &mut K, is_whole: bool, bytes: &[u8]) {
    out.put_between(", ");
    if is_whole {
        out.put(if write_all(sink, bytes).is_ok() {
            "all"
        } else {
            "failed"
        });
        return;
    }
    match sink.write(bytes) {
        Ok(count) => out.put_made(format!(in out.alloc(); "{count}")),
        Err(_) => out.put("failed"),
    }
}

/// Writes what a folder answers to each call: with a directory, which it lists, or with a file and a limit, which it reads.
pub fn put_calls<F: Folder>(
    out: &mut CaseOutput,
    folder: &mut F,
    calls: &[Datum],
) -> Result<(), CaseStop> {
    for call in calls {
        out.put_between(", ");
        match list_of(call)? {
            [dir] => put_names(out, folder.list(out.alloc(), text_of(dir)?)),
            [dir, name, limit] => put_file(out, folder, (dir, name, limit))?,
            _ => return Err(CaseStop::Form),
        }
    }
    Ok(())
}

// Writes what is read of a file in a directory to a limit: a number, or null for the largest.
fn put_file<F: Folder>(
    out: &mut CaseOutput,
    folder: &mut F,
    file: (&Datum, &Datum, &Datum),
) -> Result<(), CaseStop> {
    let limit = match file.2 {
        Datum::Null => u64::MAX,
        limit => count_of(limit)?,
    };
    let answer = folder.read(out.alloc(), text_of(file.0)?, text_of(file.1)?, limit);
    put_bytes(out, answer);
    Ok(())
}

// Writes names in brackets.
fn put_names(out: &mut CaseOutput, answer: Result<Names, IoStop>) {
    match answer {
        Ok(names) => {
            let mut mark = "[";
            for name in names.as_slice() {
                out.put(mark);
                out.put(name.as_str());
                mark = ", ";
            }
            out.put(if names.as_slice().is_empty() {
                "[]"
            } else {
                "]"
            });
        }
        Err(stop) => put_stop(out, stop),
    }
}

fn put_bytes(out: &mut CaseOutput, answer: Result<Bytes, IoStop>) {
    match answer {
        Ok(bytes) => put_quoted(out, bytes.as_slice()),
        Err(stop) => put_stop(out, stop),
    }
}

fn put_stop(out: &mut CaseOutput, stop: IoStop) {
    match stop {
        IoStop::Failed => out.put("failed"),
        IoStop::Memory => out.lose(),
    }
}

/// Writes bytes as a text in quotes.
pub fn put_quoted(out: &mut CaseOutput, bytes: &[u8]) {
    out.put("'");
    out.put(std::str::from_utf8(bytes).unwrap_or("not UTF-8"));
    out.put("'");
}
