// What the functions of templates say of data: which are true, equal or less, how long they are, their fields, their parts at a
// key, and their parts between two places.
#![tactic(auto)]

mod compare;
mod condition;
mod count;
mod cut;
mod pick;

pub use compare::{equal, less};
pub use condition::truth;
pub use count::length;
pub use cut::{slice, slice_text};
pub use pick::{Picked, field, index};
