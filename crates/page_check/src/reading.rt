ghost use Rattle.std.specs.Prelude.{◌≡◌, ◌≢◌};
ghost use Rattle.page_check.specs.Reading.{IsMemoryOr, ReadFileAnswers, ReadFilesAnswers};
ghost use Rattle.page_check.specs.declared.refused.MakeRefused.TheVariants as make;
ghost use Rattle.tpl_parse.specs.declared.refused.FileRefused.TheVariants as file_refused;

use crate::refused::MakeRefused;
use page_datum::{MAX_FILE, NamedFile};
use page_io::{List, Memory, Text};
use std::alloc::Global;
use tpl_parse::{File, FileRefused, parse_file};

/// The definitions of files, by files in their order, or why the first file that has a cause is refused.
pub fn read_files(alloc: Global, files: &[NamedFile]) -> Result<List<File>, MakeRefused>
    ensures { ReadFilesAnswers files.now result }
{
    let mut read = List::new(alloc);
    for file in files {
        let parsed = match read_file(alloc, file) {
            Ok(parsed) => parsed,
            Err(why) => return Err(why),
        };
        match read.push(parsed) {
            Ok(()) => {}
            Err(Memory) => return Err(MakeRefused::Memory),
        }
    }
    Ok(read)
}

// The definitions of a file, or why it is refused.
fn read_file(alloc: Global, file: &NamedFile) -> Result<File, MakeRefused>
    ensures { ReadFileAnswers file.now result }
{
    if file.bytes.len() > MAX_FILE {
        return Err(too_large(alloc, &file.name));
    }
    let text = match std::str::from_utf8(file.bytes.as_slice()) {
        Ok(text) => text,
        Err(_) => return Err(not_utf8(alloc, &file.name)),
    };
    match parse_file(alloc, file.name.as_str(), text) {
        Ok(read) => Ok(read),
        Err(FileRefused::Memory) => Err(MakeRefused::Memory),
        Err(why) => Err(in_file(alloc, &file.name, why)),
    }
}

fn too_large(alloc: Global, name: &Text) -> MakeRefused
    ensures { IsMemoryOr result (make.TooLarge name.now) }
{
    match Text::copy_of(alloc, name.as_str()) {
        Ok(name) => MakeRefused::TooLarge(name),
        Err(Memory) => MakeRefused::Memory,
    }
}

fn not_utf8(alloc: Global, name: &Text) -> MakeRefused
    ensures { IsMemoryOr result (make.NotUtf8 name.now) }
{
    match Text::copy_of(alloc, name.as_str()) {
        Ok(name) => MakeRefused::NotUtf8(name),
        Err(Memory) => MakeRefused::Memory,
    }
}

fn in_file(alloc: Global, name: &Text, why: FileRefused) -> MakeRefused
    ensures { IsMemoryOr result (make.File name.now why) }
{
    match Text::copy_of(alloc, name.as_str()) {
        Ok(name) => MakeRefused::File(name, why),
        Err(Memory) => MakeRefused::Memory,
    }
}
