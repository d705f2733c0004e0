// Which words and characters HTML reads in the names and values of attributes: the kinds of attributes, the names that no data
// may make, the types of scripts, and character references undone one at a time.
#![tactic(auto)]

mod character;
mod kind;
mod laws;
mod names;
mod number;
mod ref_chars;
mod reference;
mod script;
mod script_value;
mod special_name;
mod stood_for;
mod utf8;
mod words;

pub use character::next_char;
pub use kind::{attr_kind, name_kind};
pub use laws::{cut_is_one_by_one, undone_is_one_by_one};
pub use ref_chars::RefChars;
pub use script::script_type;
pub use script_value::script_type_in_value;
pub use special_name::special;
pub use stood_for::{named_char, numbered_char, short_char};
pub use words::{begins, same};
