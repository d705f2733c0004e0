use crate::byte_counter::ByteCounter;
use crate::forest::NAME;
use crate::request::Input;
use page_datum::{DataRefused, Datum, Files, NamedFile, PageStop, Pages, read_datum};
use page_io::{Bytes, List, Memory, Text};
use page_set::{MakeRefused, PageSet};
use std::alloc::{AllocError, Global};

/// The bytes of the page of a template with data, which is made that many times from one set and one datum. Of the template and the
/// data the longer one is the input.
pub fn page_counted(
    alloc: Global,
    template: &str,
    data: &str,
    times: usize,
) -> Result<String, AllocError> {
    let bytes = template.len().max(data.len());
    let datum = match read_datum(alloc, data.as_bytes()) {
        Ok(datum) => datum,
        Err(DataRefused::Memory) => return Err(AllocError),
        Err(_) => return format!(in alloc; "{bytes} bytes, refused"),
    };
    let files = match one_file(alloc, template) {
        Ok(files) => files,
        Err(Memory) => return Err(AllocError),
    };
    let set = match PageSet::make(alloc, files) {
        Ok(set) => set,
        Err(MakeRefused::Memory) => return Err(AllocError),
        Err(_) => return format!(in alloc; "{bytes} bytes, refused"),
    };
    match made(alloc, &set, &datum, times) {
        Ok(count) => format!(in alloc; "{bytes} bytes, {count} bytes of a page"),
        Err(PageStop::Memory) => Err(AllocError),
        Err(_) => format!(in alloc; "{bytes} bytes, and a fault"),
    }
}

/// The data of the page of an input that is a template, as JSON.
pub fn data_of(input: Input) -> &'static str {
    match input {
        Input::PageSections => "{\"l\":[\"a b\",\"c\"],\"v\":\"<&\",\"w\":7}",
        Input::Links => "{\"v\":\"a b\",\"w\":\"c&d\"}",
        Input::Styles | Input::StyleElements => "{\"v\":\"#1a2b3c\",\"w\":120}",
        Input::Scripts | Input::ScriptElements => "{\"v\":\"a'b/c\",\"w\":120}",
        Input::SmallPages => "{\"q\":\"b\"}",
        _ => "null",
    }
}

/// A set of one file, `NAME`, which is a root.
pub fn one_file(alloc: Global, template: &str) -> Result<Files, Memory> {
    let mut list = List::new(alloc);
    list.push(NamedFile {
        name: Text::copy_of(alloc, NAME)?,
        bytes: Bytes::copy_of(alloc, template.as_bytes())?,
    })?;
    Ok(Files {
        dir: Text::copy_of(alloc, "")?,
        list,
    })
}

// Makes the page that many times and says how many bytes the last one had.
fn made(alloc: Global, set: &PageSet, datum: &Datum, times: usize) -> Result<u64, PageStop> {
    let mut count = 0;
    for _ in 0..times {
        let mut sink = ByteCounter::new();
        match set.page(alloc, NAME, datum, &mut sink) {
            Ok(_) => count = sink.bytes(),
            Err(stop) => return Err(stop),
        }
    }
    Ok(count)
}
