// Names in order, and the files of a directory in memory.
ghost use Rattle.std.specs.Prelude.{◌≡◌, ◌+◌, [], take, IfOk, IfSome, option_copied};
ghost use Rattle.std.specs.Cmp.Lexicographic.{slice_cmp};
ghost use Rattle.std.specs.Ordering.{nat_cmp};
ghost use Rattle.std.specs.List.Sorted.{IsStrictlySortedBy};
ghost use Rattle.page_io.specs.FolderContents as spec;

use crate::bytes::Bytes;
use crate::list::{List, Names};
use crate::mem_folder::MemFile;
use crate::stop::Memory;
use crate::text::Text;
use std::alloc::Global;
use std::collections::BTreeSet;

/// The names of a set, in byte order.
pub fn in_order(alloc: Global, names: BTreeSet<Text>) -> Result<Names, Memory>
    ensures names { IfOk result (λ list. list ≡ names.keys) }
    ensures order { IfOk result (IsStrictlySortedBy (slice_cmp nat_cmp)) }
{
    let mut list = List::new(alloc);
    for name in names {
        list.push(name)?;
    }
    Ok(list)
}

/// The names of the files of a directory, in byte order, each once.
pub fn names_in(alloc: Global, files: &[MemFile], dir: &str) -> Result<Names, Memory>
    ensures names { IfOk result (λ names. names ≡ spec.names_in files.now dir.now []) }
    ensures order { IfOk result (IsStrictlySortedBy (slice_cmp nat_cmp)) }
{
    let mut names = BTreeSet::new(alloc);
    for file in files {
        if file.dir.as_str() == dir {
            names.insert(Text::copy_of(alloc, file.name.as_str())?)?;
        }
    }
    in_order(alloc, names)
}

/// The bytes of the first file with this directory and name.
pub fn content_in<'a>(files: &'a [MemFile], dir: &str, name: &str) -> Option<&'a [u8]>
    ensures { option_copied result ≡ spec.content_in files.now dir.now name.now }
{
    for file in files {
        if file.dir.as_str() == dir && file.name.as_str() == name {
            return Some(file.bytes.as_slice());
        }
    }
    None
}

/// The first `max + 1` bytes, or all where there are no more.
pub fn prefix_of(alloc: Global, bytes: &[u8], max: u64) -> Result<Bytes, Memory>
    ensures { IfOk result (λ prefix. prefix ≡ take (max + 1) bytes.now) }
{
    let count = (max as usize).saturating_add(1).min(bytes.len());
    let (prefix, _) = bytes.split_at(count);
    Bytes::copy_of(alloc, prefix)
}
