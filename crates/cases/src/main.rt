// Runs tables of cases. Each word names a file in the form of `docs/CASES.md`, whose rows have what a public call of the
// engine is given and what is wanted of it. A line is printed for each file that holds, and for another one each case that
// differs and each group that has not as many cases as it says.
#![tactic(auto)]

mod engine;

use crate::engine::Engine;
use case_pages::{is_of_serve, serve_report_of};
use case_table::{CaseStop, report_of};
use page_datum::{Datum, read_datum};
use page_io::{Bytes, IoStop, ReadSource, Text, read_up_to};
use std::process::ExitCode;
use std::sync::Wait;
use std::thread::Threads;
use std::{env, fs, io};

// The most bytes of a file of cases.
const MOST: usize = 8_388_608;

fn main(rt: HostRuntime) -> ExitCode {
    let Ok(words) = env::args(&rt) else {
        return ExitCode::from(1);
    };
    let mut holds = true;
    for file in words.skip(1) {
        match is_held(&rt, &rt, file.as_str()) {
            Ok(true) => {}
            Ok(false) => holds = false,
            Err(_) => return ExitCode::from(6),
        }
    }
    ExitCode::from(if holds { 0 } else { 1 })
}

// Prints the report of a file, and says whether the file holds.
fn is_held<R: Threads + Wait + Sync>(
    rt: &HostRuntime,
    threads: &R,
    name: &str,
) -> io::Result<bool> {
    match report(rt, threads, name) {
        Ok(report) if report.is_empty() => {
            println!(rt; "{name}: holds")?;
            Ok(true)
        }
        Ok(report) => {
            let report = report.as_str();
            print!(rt; "{report}")?;
            Ok(false)
        }
        Err(why) => {
            println!(rt; "{name}: {why}")?;
            Ok(false)
        }
    }
}

// The report of a file, or why its cases cannot be run.
fn report<R: Threads + Wait + Sync>(
    rt: &HostRuntime,
    threads: &R,
    name: &str,
) -> Result<Text, &'static str> {
    let Ok(bytes) = bytes_of(rt, name) else {
        return Err("the file cannot be read");
    };
    let Ok(table) = read_datum(rt.alloc(), bytes.as_slice()) else {
        return Err("no JSON");
    };
    match report_of_table(rt, threads, name, &table) {
        Ok(report) => Ok(report),
        Err(CaseStop::Form) => Err("not the form of a table of cases"),
        Err(CaseStop::Memory) => Err("out of memory"),
    }
}

// The report of a table: by the engine, or of `serve`.
fn report_of_table<R: Threads + Wait + Sync>(
    rt: &HostRuntime,
    threads: &R,
    name: &str,
    table: &Datum,
) -> Result<Text, CaseStop> {
    if is_of_serve(table) {
        serve_report_of(rt.alloc(), threads, name, table)
    } else {
        report_of(rt.alloc(), name, table, &Engine::new(rt))
    }
}

fn bytes_of(rt: &HostRuntime, name: &str) -> Result<Bytes, IoStop> {
    match fs::open(rt, name) {
        Ok(file) => read_up_to(rt.alloc(), &mut ReadSource::new(file), MOST),
        Err(_) => Err(IoStop::Failed),
    }
}
