use case_table::{CaseOutput, CaseRow, CaseStop, bytes_of, counts_of, list_of, text_of};
use page_datum::{Datum, Files, NamedFile, PageEnd, PageStop, Pages, Shown};
use page_io::{Bytes, List, MemSink, Text};
use page_set::{MakeRefused, PageSet};
use std::alloc::Global;

// How many bytes of a page a sink has room for, and takes at a time.
const ROOM: u64 = 1000;

const STEP: u64 = 4;

/// Writes what a call of `page_set` gives: whether files are a set, which names are roots of it, the page that a root of it
/// gives, and the lines of a refusal.
pub fn put_pages(out: &mut CaseOutput, call: &str, row: &CaseRow) -> Result<(), CaseStop> {
    if call == "lines" {
        return put_lines(out, &refused_of(row.text(0)?)?);
    }
    match set_of(out.alloc(), row.list(0)?)? {
        Ok(set) => put_set(out, call, row, &set),
        Err(refused) => put_refusal(out, &refused),
    }
}

// The set of files, or why they are none.
fn set_of(alloc: Global, files: &[Datum]) -> Result<Result<PageSet, MakeRefused>, CaseStop> {
    let dir = Text::copy_of(alloc, "pages")?;
    let list = files_of(alloc, files)?;
    Ok(PageSet::make(alloc, Files { dir, list }))
}

// Files, each a list of its name and its bytes, which may stand in several parts.
fn files_of(alloc: Global, files: &[Datum]) -> Result<List<NamedFile>, CaseStop> {
    let mut all = List::new(alloc);
    for file in files {
        all.push(file_of(alloc, list_of(file)?)?)?;
    }
    Ok(all)
}

fn file_of(alloc: Global, parts: &[Datum]) -> Result<NamedFile, CaseStop> {
    let [name, parts @ ..] = parts else {
        return Err(CaseStop::Form);
    };
    let bytes = joined(alloc, parts)?;
    let name = Text::copy_of(alloc, text_of(name)?)?;
    Ok(NamedFile { name, bytes })
}

fn joined(alloc: Global, parts: &[Datum]) -> Result<Bytes, CaseStop> {
    let mut all = Bytes::new(alloc);
    for part in parts {
        all.push_slice(bytes_of(alloc, part)?.as_slice())?;
    }
    Ok(all)
}

fn put_set(out: &mut CaseOutput, call: &str, row: &CaseRow, set: &PageSet) -> Result<(), CaseStop> {
    match call {
        "make" => out.put("a set"),
        "is_root" => out.put(if set.is_root(row.text(1)?) {
            "a root"
        } else {
            "no root"
        }),
        call => return put_page(out, row, set, sink_of(out.alloc(), call, row)?),
    }
    Ok(())
}

// The sink of a page: one that has room for many and never fails, or one with the room and the failing calls of a row.
fn sink_of(alloc: Global, call: &str, row: &CaseRow) -> Result<MemSink, CaseStop> {
    match call {
        "page" => Ok(MemSink::new(alloc, ROOM, STEP, List::new(alloc))?),
        "page/sink" => {
            let fails = counts_of(alloc, row.list(4)?)?;
            Ok(MemSink::new(alloc, row.count(3)?, STEP, fails)?)
        }
        _ => Err(CaseStop::Form),
    }
}

// Writes the lines of a refusal, after a text that was there.
fn put_refusal(out: &mut CaseOutput, refused: &MakeRefused) -> Result<(), CaseStop> {
    if refused.memory() {
        return Err(CaseStop::Memory);
    }
    let mut lines = Text::copy_of(out.alloc(), "no set: ")?;
    refused.lines(&mut lines)?;
    out.put(lines.as_str());
    Ok(())
}

// Writes what writing a page answers, and what the sink has got then.
fn put_page(
    out: &mut CaseOutput,
    row: &CaseRow,
    set: &PageSet,
    sink: MemSink,
) -> Result<(), CaseStop> {
    let datum = row.datum(out.alloc(), 2)?;
    let mut sink = sink;
    let end = set.page(out.alloc(), row.text(1)?, &datum, &mut sink);
    put_end(out, &end);
    out.put(": ");
    out.put(std::str::from_utf8(sink.taken()).unwrap_or("not UTF-8"));
    Ok(())
}

fn put_end(out: &mut CaseOutput, end: &Result<PageEnd, PageStop>) {
    match end {
        Ok(end) => {
            let (bytes, steps) = (end.bytes, end.steps);
            out.put_made(format!(in out.alloc(); "{bytes} bytes {steps} steps"));
        }
        Err(PageStop::NoTemplate) => out.put("NoTemplate"),
        Err(PageStop::Fault(fault)) => out.put_fault(fault),
        Err(PageStop::SinkStop) => out.put("SinkStop"),
        Err(PageStop::Memory) => out.lose(),
    }
}

// A refusal that names no file.
fn refused_of(name: &str) -> Result<MakeRefused, CaseStop> {
    match name {
        "NoTemplates" => Ok(MakeRefused::NoTemplates),
        "Memory" => Ok(MakeRefused::Memory),
        _ => Err(CaseStop::Form),
    }
}

// Writes whether a refusal is out of memory, and its lines.
fn put_lines(out: &mut CaseOutput, refused: &MakeRefused) -> Result<(), CaseStop> {
    let mut lines = Text::new(out.alloc());
    refused.lines(&mut lines)?;
    out.put(if refused.memory() {
        "memory true: "
    } else {
        "memory false: "
    });
    out.put(lines.as_str());
    Ok(())
}
