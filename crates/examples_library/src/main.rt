// A page made with the libraries: files in memory are a set of pages, and one of its roots is written with data into a sink.
#![tactic(auto)]

use page_datum::{Files, NamedFile, Pages, read_datum};
use page_io::{Bytes, List, MemSink, Memory, Text};
use page_set::PageSet;
use std::alloc::Global;
use std::process::ExitCode;

const TEMPLATE: &str = "<h1>{{.shop}}</h1>\n{{range .items}}<p>{{.}}</p>\n{{end}}";

const DATA: &str = "{\"shop\": \"Ann & Co\", \"items\": [\"Haddock\", \"<b>Herring\"]}";

fn main(rt: HostRuntime) -> ExitCode {
    let Ok(sink) = page(rt.alloc()) else {
        return ExitCode::from(1);
    };
    let page = std::str::from_utf8(sink.taken()).unwrap_or("");
    match print!(rt; "{page}") {
        Ok(()) => ExitCode::from(0),
        Err(_) => ExitCode::from(6),
    }
}

// The page in a sink that has room for 1,000 bytes, or why there is none.
fn page(alloc: Global) -> Result<MemSink, &'static str> {
    let Ok(files) = files(alloc) else {
        return Err("out of memory");
    };
    let Ok(set) = PageSet::make(alloc, files) else {
        return Err("the files are refused");
    };
    let Ok(datum) = read_datum(alloc, DATA.as_bytes()) else {
        return Err("the data are refused");
    };
    let Ok(mut sink) = MemSink::new(alloc, 1000, 1000, List::new(alloc)) else {
        return Err("out of memory");
    };
    match set.page(alloc, "index.html", &datum, &mut sink) {
        Ok(_) => Ok(sink),
        Err(_) => Err("the page is not complete"),
    }
}

// The template files of a directory: here one, whose name makes it a root.
fn files(alloc: Global) -> Result<Files, Memory> {
    let mut list = List::new(alloc);
    let name = Text::copy_of(alloc, "index.html")?;
    let bytes = Bytes::copy_of(alloc, TEMPLATE.as_bytes())?;
    list.push(NamedFile { name, bytes })?;
    let dir = Text::copy_of(alloc, "pages")?;
    Ok(Files { dir, list })
}
