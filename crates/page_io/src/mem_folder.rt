ghost use Rattle.std.specs.Prelude.{◌≡◌, ◌+◌, ◌-◌, ◌^◌, ◌⊎◌, [], take, min, IfOk, IsErrOf, IsSomeAnd, Contains, Some, None};
ghost use Rattle.std.specs.Cmp.Lexicographic.{slice_cmp};
ghost use Rattle.std.specs.Ordering.{nat_cmp};
ghost use Rattle.std.specs.List.Sorted.{IsStrictlySortedBy};
ghost use Rattle.page_io.specs.Causes.{HasStop};
ghost use Rattle.page_io.specs.FolderContents as spec;

use crate::bytes::Bytes;
use crate::calls::Calls;
use crate::files::{content_in, names_in, prefix_of};
use crate::folder::Folder;
use crate::list::{List, Names};
use crate::stop::IoStop;
use crate::text::Text;
use std::alloc::Global;

/// A file in memory: its directory, its name there, and its bytes.
#[derive(Debug, Drop)]
pub struct MemFile {
    pub dir: Text,
    pub name: Text,
    pub bytes: Bytes,
}

/// A folder of files in memory that fails at stated calls. Of two files with one directory and name the first stands.
#[derive(Debug, Drop)]
pub struct MemFolder {
    files: List<MemFile>,
    calls: Calls,
}

impl MemFolder {
    ghost use Rattle.page_io.specs.FolderContents.{held_of};

    /// A folder of these files. `fail` has the numbers of the calls that are to fail, counted from 1.
    pub fn new(files: List<MemFile>, fail: List<u64>) -> MemFolder
        ensures held { ⟦<MemFolder as Folder>⟧.held result ≡ Some (held_of files) }
        ensures faults { ⟦<MemFolder as Folder>⟧.faults result ≡ 0 }
        ensures calls { result.calls ≡ record { fail = fail; made = 0; faults = 0 } }
    {
        MemFolder {
            files,
            calls: Calls::new(fail),
        }
    }
}

impl Folder for MemFolder {
    ghost use Rattle.std.specs.Prelude.{Some};
    ghost use Rattle.page_io.specs.FolderContents.{held_of};

    ghost held = { λ f. Some (held_of f.files) };

    ghost faults = { λ f. f.calls.faults };

    /// Fails exactly at the stated calls.
    fn list(&mut self, alloc: Global, dir: &str) -> Result<Names, IoStop>
        ensures names { IfOk result (λ names. names ≡ spec.names_in self.old.files dir.now []) }
        ensures order { IfOk result (IsStrictlySortedBy (slice_cmp nat_cmp)) }
        ensures kept { self.new.files ≡ self.old.files }
        ensures cause { HasStop self.old.calls.faults self.new.calls.faults result }
        ensures made { self.new.calls.made ≡ min (self.old.calls.made + 1) (2 ^ 64 - 1) }
        ensures fail { self.new.calls.fail ≡ self.old.calls.fail }
        ensures failed { IsErrOf result IoStop.Failed
            → Contains self.old.calls.fail self.new.calls.made }
        ensures told { Contains self.old.calls.fail self.new.calls.made
            → IsErrOf result IoStop.Failed }
    {
        self.calls.begin()?;
        Ok(names_in(alloc, self.files.as_slice(), dir)?)
    }

    /// Fails exactly at the stated calls, and where the file is not there.
    fn read(&mut self, alloc: Global, dir: &str, name: &str, max: u64) -> Result<Bytes, IoStop>
        ensures bytes { IfOk result (λ bytes.
            IsSomeAnd (spec.content_in self.old.files dir.now name.now)
            (λ all. bytes ≡ take (max + 1) all)) }
        ensures kept { self.new.files ≡ self.old.files }
        ensures cause { HasStop self.old.calls.faults self.new.calls.faults result }
        ensures made { self.new.calls.made ≡ min (self.old.calls.made + 1) (2 ^ 64 - 1) }
        ensures fail { self.new.calls.fail ≡ self.old.calls.fail }
        ensures failed { IsErrOf result IoStop.Failed →
            Contains self.old.calls.fail self.new.calls.made
            ⊎ (spec.content_in self.old.files dir.now name.now ≡ None) }
        ensures told { Contains self.old.calls.fail self.new.calls.made
            → IsErrOf result IoStop.Failed }
    {
        self.calls.begin()?;
        match content_in(self.files.as_slice(), dir, name) {
            Some(bytes) => Ok(prefix_of(alloc, bytes, max)?),
            None => Err(IoStop::from(self.calls.fault())),
        }
    }
}
