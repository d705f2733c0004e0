// The program: the commands over the real devices.
#![tactic(auto)]

use page_io::{Directory, List, ReadSource, WriteSink};
use page_spawn::ThreadSpawner;
use page_tcp::TcpNet;
use page_tool::{Status, run};
use set_publisher::PackSeats;
use std::alloc::AllocError;
use std::env;
use std::io::ErrorKind;
use std::process::ExitCode;

fn main(rt: HostRuntime) -> ExitCode {
    let words = match words(&rt) {
        Ok(words) => words,
        Err(_) => return ExitCode::from(Status::Memory.code()),
    };
    let folder = Directory::new(&rt);
    let mut input = ReadSource::new(rt.stdin());
    let mut out = WriteSink::new(rt.stdout());
    let mut err = WriteSink::new(rt.stderr());
    let mut net = TcpNet::new(&rt);
    let mut spawner = ThreadSpawner::new(&rt);
    let mut seats = PackSeats::new(List::new(rt.alloc()));
    let (status, _folder) = run(
        rt.alloc(),
        &rt,
        words.as_slice(),
        folder,
        &mut input,
        &mut out,
        &mut err,
        &mut net,
        &mut spawner,
        &mut seats,
    );
    ExitCode::from(status.code())
}

// The words after the program's name, or none, which are those of no command, where one of them is not UTF-8.
fn words<R: env::Env + AllocGlobal>(rt: &R) -> Result<Vec<String>, AllocError> {
    let mut words = Vec::new(rt.alloc());
    let args = match env::args(rt) {
        Ok(args) => args,
        Err(error) if error.kind() == ErrorKind::OutOfMemory => return Err(AllocError),
        Err(_) => return Ok(words),
    };
    for word in args.skip(1) {
        words.push(word)?;
    }
    Ok(words)
}
