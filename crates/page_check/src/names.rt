ghost use Rattle.std.specs.Prelude.{◌≡◌, IfOk, length};
ghost use Rattle.page_check.specs.Roots.{roots_of};
ghost use Rattle.page_check.specs.Roots as spec;

use page_datum::NamedFile;
use page_io::{List, Memory, Names, Text};
use std::alloc::Global;

/// Whether a name is of a file that is no root, since it begins with `_`.
pub fn is_partial(name: &str) -> bool
    ensures { result ≡ spec.is_partial name.now }
{
    match name.as_bytes().first() {
        Some(byte) => *byte == b'_',
        None => false,
    }
}

/// The names of the files that are roots, in their order. Fails only if allocation fails.
pub fn root_names(alloc: Global, files: &[NamedFile]) -> Result<Names, Memory>
    ensures { IfOk result (λ names. names ≡ roots_of files.now) }
{
    let mut names = List::new(alloc);
    for file in files {
        if !is_partial(file.name.as_str()) {
            names.push(Text::copy_of(alloc, file.name.as_str())?)?;
        }
    }
    Ok(names)
}

/// How many files are roots.
pub fn count_roots(files: &[NamedFile]) -> usize
    ensures { result ≡ length (roots_of files.now) }
{
    let mut count = 0;
    for file in files {
        if !is_partial(file.name.as_str()) {
            count += 1;
        }
    }
    count
}
