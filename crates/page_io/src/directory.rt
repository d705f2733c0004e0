ghost use Rattle.std.specs.Prelude.{◌≡◌, ◌≤◌};
ghost use Rattle.page_io.specs.Causes.{Rose};

use crate::bytes::Bytes;
use crate::files::in_order;
use crate::folder::Folder;
use crate::list::Names;
use crate::stop::IoStop;
use crate::text::Text;
use std::alloc::Global;
use std::collections::BTreeSet;
use std::fs;
use std::io::{self, ErrorKind, Read};
use std::rt::Files;

/// The real directories, of the system that `R` stands for. It tells nothing of what they hold.
#[derive(Drop)]
pub struct Directory<R> {
    rt: R,
    faults: u64,
}

impl<R: Files + AllocGlobal + Clone + Drop> Directory<R> {
    /// The directories of this system, with no failure yet.
    pub fn new(rt: R) -> Directory<R>
        ensures { ⟦<Directory<R> as Folder>⟧.faults result ≡ 0 }
    {
        Directory { rt, faults: 0 }
    }

    // What a call answers for an error of the system.
    fn stop(&mut self, error: &io::Error) -> IoStop
        ensures later { self.old.faults ≤ self.new.faults }
        ensures failed { result ≡ IoStop.Failed → Rose self.old.faults self.new.faults }
    {
        if error.kind() == ErrorKind::OutOfMemory {
            return IoStop::Memory;
        }
        self.faults = self.faults.saturating_add(1);
        IoStop::Failed
    }
}

impl<R: Files + AllocGlobal + Clone + Drop> Folder for Directory<R> {
    ghost use Rattle.std.specs.Prelude.{None};

    ghost held = { λ _. None };

    ghost faults = { λ d. d.faults };

    /// Regular files and links to them. A name that is not UTF-8 is a failure.
    fn list(&mut self, alloc: Global, dir: &str) -> Result<Names, IoStop> {
        match file_names(&self.rt, alloc, dir) {
            Ok(names) => Ok(in_order(alloc, names)?),
            Err(error) => Err(self.stop(&error)),
        }
    }

    fn read(&mut self, alloc: Global, dir: &str, name: &str, max: u64) -> Result<Bytes, IoStop> {
        match prefix_of_file(&self.rt, alloc, dir, name, max) {
            Ok(bytes) => Ok(Bytes::from(bytes)),
            Err(error) => Err(self.stop(&error)),
        }
    }
}

fn file_names<R: Files + AllocGlobal + Clone + Drop>(
    rt: &R,
    alloc: Global,
    dir: &str,
) -> io::Result<BTreeSet<Text>> {
    let mut names = BTreeSet::new(alloc);
    for entry in fs::read_dir(rt, dir)? {
        let entry = entry?;
        if is_file(rt, entry.path().as_str())? {
            let name = String::from_str(alloc, entry.file_name())?;
            names.insert(Text::from(name))?;
        }
    }
    Ok(names)
}

// Whether a path leads to a regular file. A link that leads nowhere does not.
fn is_file<R: Files>(rt: &R, path: &str) -> io::Result<bool> {
    match fs::metadata(rt, path) {
        Ok(metadata) => Ok(metadata.is_file()),
        Err(error) if error.kind() == ErrorKind::NotFound => Ok(false),
        Err(error) => Err(error),
    }
}

fn prefix_of_file<R: Files>(
    rt: &R,
    alloc: Global,
    dir: &str,
    name: &str,
    max: u64,
) -> io::Result<Vec<u8>> {
    let path = format!(in alloc; "{dir}/{name}")?;
    let file = fs::open(rt, path.as_str())?;
    let mut bytes = Vec::new(alloc);
    file.take(max.saturating_add(1)).read_to_end(&mut bytes)?;
    Ok(bytes)
}
