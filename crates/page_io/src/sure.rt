// Versions of the devices over memory that never fail.
ghost use Rattle.std.specs.Prelude.{◌≡◌, ◌<◌, ◌≤◌, length, Some};

use crate::bytes::Bytes;
use crate::files::{content_in, names_in, prefix_of};
use crate::folder::Folder;
use crate::list::{List, Names};
use crate::mem_folder::MemFile;
use crate::mem_source::copy_prefix;
use crate::sink::Sink;
use crate::source::Source;
use crate::stop::{Failed, IoStop};
use std::alloc::Global;

/// A source over bytes in memory that gives some at a time and never fails.
#[derive(Debug, Drop)]
pub struct SureSource {
    bytes: Bytes,
    at: usize,
    step: u64,
    ghost in_bytes: { at ≤ length bytes },
    ghost moves: { 0 < step },
}

impl SureSource {
    /// A source of these bytes that gives at most `step` at a time.
    pub fn new(bytes: Bytes, step: u64) -> SureSource
        requires { 0 < step }
        ensures left { ⟦<SureSource as Source>⟧.left result ≡ Some bytes }
        ensures step { result.step ≡ step }
    {
        SureSource { bytes, at: 0, step }
    }
}

impl Source for SureSource {
    ghost use Rattle.std.specs.Prelude.{Some, drop};

    ghost left = { λ s. Some (drop s.at s.bytes) };

    ghost faults = { λ _. 0 };

    fn read(&mut self, buf: &mut [u8]) -> Result<usize, Failed> {
        let (_, rest) = self.bytes.as_slice().split_at(self.at);
        let count = copy_prefix(rest, buf, self.step);
        self.at += count;
        Ok(count)
    }
}

/// A sink that takes some bytes at a time, keeps none of them, tells nothing of them, and never fails.
#[derive(Debug, Drop)]
pub struct SureSink {
    step: u64,
    ghost moves: { 0 < step },
}

impl SureSink {
    /// A sink that takes at most `step` bytes at a time.
    pub fn new(step: u64) -> SureSink
        requires { 0 < step }
        ensures faults { ⟦<SureSink as Sink>⟧.faults result ≡ 0 }
        ensures step { result.step ≡ step }
    {
        SureSink { step }
    }
}

impl Sink for SureSink {
    ghost use Rattle.std.specs.Prelude.{None};

    ghost taken = { λ _. None };

    ghost faults = { λ _. 0 };

    fn write(&mut self, bytes: &[u8]) -> Result<usize, Failed> {
        Ok(bytes.len().min(self.step as usize))
    }
}

/// A folder of files in memory that never fails: a name that has no file is read as an empty one.
#[derive(Debug, Drop)]
pub struct SureFolder {
    files: List<MemFile>,
}

impl SureFolder {
    ghost use Rattle.page_io.specs.FolderContents.{filled_by};

    /// A folder of these files.
    pub fn new(files: List<MemFile>) -> SureFolder
        ensures { ⟦<SureFolder as Folder>⟧.held result ≡ Some (filled_by files) }
    {
        SureFolder { files }
    }
}

impl Folder for SureFolder {
    ghost use Rattle.std.specs.Prelude.{Some};
    ghost use Rattle.page_io.specs.FolderContents.{filled_by};

    ghost held = { λ f. Some (filled_by f.files) };

    ghost faults = { λ _. 0 };

    fn list(&mut self, alloc: Global, dir: &str) -> Result<Names, IoStop> {
        Ok(names_in(alloc, self.files.as_slice(), dir)?)
    }

    fn read(&mut self, alloc: Global, dir: &str, name: &str, max: u64) -> Result<Bytes, IoStop> {
        match content_in(self.files.as_slice(), dir, name) {
            Some(bytes) => Ok(prefix_of(alloc, bytes, max)?),
            None => Ok(Bytes::new(alloc)),
        }
    }
}
