// The definitions of a template file, built from what each of its actions says.
#![tactic(auto)]

mod action;
mod actions;
mod builder;
mod controls;
mod definition;
mod definitions;
mod frame;
mod gathering;

pub use action::{ActionKind, Opening, Purpose};
pub use actions::{add, add_taken};
pub use builder::{Builder, add_text, empty_builder};
pub use controls::begin_else;
pub use definition::{Def, File, FoundDefinition};
pub use frame::{Around, Control, OpenControl, OpenDefinition, OpenForm};
pub use gathering::gather;
