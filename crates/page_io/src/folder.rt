ghost use Rattle.std.specs.Prelude.{◌≡◌, ℕ, ◌+◌, Option, IfOk, IfSome, IsSomeAnd, take};
ghost use Rattle.std.specs.Cmp.Lexicographic.{slice_cmp};
ghost use Rattle.std.specs.Ordering.{nat_cmp};
ghost use Rattle.std.specs.List.Sorted.{IsStrictlySortedBy};
ghost use Rattle.page_io.specs.Causes.{HasStop};
ghost use Rattle.page_io.specs.FolderContents.{FolderContents};

use crate::bytes::Bytes;
use crate::list::Names;
use crate::stop::IoStop;
use std::alloc::Global;

/// Directories with files.
pub trait Folder {
    // The names of the files of each directory and the bytes of each file, where the folder tells them.
    ghost held: { Self → Option FolderContents };

    // How many calls failed.
    ghost faults: { Self → ℕ };

    /// The names of the files of `dir`, in byte order, each once.
    fn list(&mut self, alloc: Global, dir: &str) -> Result<Names, IoStop>
        ensures names { IfOk result (λ names.
            IfSome (held self.old) (λ held. names ≡ held.names dir.now)) }
        ensures order { IfOk result (IsStrictlySortedBy (slice_cmp nat_cmp)) }
        ensures kept { held self.new ≡ held self.old }
        ensures cause { HasStop (faults self.old) (faults self.new) result };

    /// The first `max + 1` bytes of a file of `dir`, or all of it where it is shorter. A file that is not there is a
    /// failure.
    fn read(&mut self, alloc: Global, dir: &str, name: &str, max: u64) -> Result<Bytes, IoStop>
        ensures bytes { IfOk result (λ bytes. IfSome (held self.old)
            (λ held. IsSomeAnd (held.content dir.now name.now)
            (λ all. bytes ≡ take (max + 1) all))) }
        ensures kept { held self.new ≡ held self.old }
        ensures cause { HasStop (faults self.old) (faults self.new) result };
}
