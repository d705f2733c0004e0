// Data for pages: reading it from JSON and printing it, and what several crates share about pages:
// their files, their faults, and the trait of a set of pages.
#![tactic(auto)]

mod copy;
mod datum;
mod datum_ref;
mod depth;
mod fault;
mod files;
mod legible_text;
mod loading;
mod pages;
mod pairs;
mod print;
mod read;
mod refused;
mod shared;
mod shown;
mod stop;
mod take;

pub use datum::{Datum, Entries, Items};
pub use datum_ref::DatumRef;
pub use depth::MAX_DEPTH;
pub use fault::{ExecFault, FaultKind};
pub use files::{Files, MAX_FILE, NamedFile};
pub use legible_text::{legible, legible_path};
pub use loading::load;
pub use pages::{PageEnd, PageStop, Pages};
pub use print::{print_datum, show_datum};
pub use read::{MAX_LENGTH, read_datum};
pub use refused::DataRefused;
pub use shared::Shared;
pub use shown::Shown;
pub use stop::ValueStop;
