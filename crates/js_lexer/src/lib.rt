// How scripts are read, byte by byte: the classes of bytes, the words that decide what a slash is, and the laws by which a page reads
// the texts of a template as the template's path does.
#![tactic(auto)]

mod class;
mod laws;
mod sense;
mod word;

pub use class::{ScriptClass, class_of};
pub use laws::{data_are_plain, scripts_read_alike, texts_read_back, what_is_written_reads_alike};
pub use sense::Sense;
pub use word::sense_after;
