// What every crate shares of the outside: texts, bytes and lists, the traits of devices, their versions over memory,
// and the adapters over the real ones.
#![tactic(auto)]

mod bytes;
mod calls;
mod directory;
mod files;
mod folder;
mod keys;
mod lines;
mod list;
mod mem_folder;
mod mem_sink;
mod mem_source;
mod sink;
mod source;
mod stack;
mod stop;
mod streams;
mod sure;
mod text;

pub use bytes::Bytes;
pub use directory::Directory;
pub use folder::Folder;
pub use keys::number_of_key;
pub use lines::line_feeds;
pub use list::{List, Names};
pub use mem_folder::{MemFile, MemFolder};
pub use mem_sink::MemSink;
pub use mem_source::MemSource;
pub use sink::{Sink, write_all};
pub use source::{Source, read_up_to};
pub use stack::Stack;
pub use stop::{Failed, IoStop, Memory, Stop};
pub use streams::{ReadSource, WriteSink};
pub use sure::{SureFolder, SureSink, SureSource};
pub use text::Text;
