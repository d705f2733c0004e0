use page_io::{Bytes, List, Text};

/// The most bytes that a template file may have.
pub const MAX_FILE: usize = 1_048_576;

/// A file: its name in its directory, and its bytes.
#[derive(Debug, Drop)]
pub struct NamedFile {
    pub name: Text,
    pub bytes: Bytes,
}

/// The template files of a directory, in byte order of their names.
#[derive(Debug, Drop)]
pub struct Files {
    pub dir: Text,
    pub list: List<NamedFile>,
}
