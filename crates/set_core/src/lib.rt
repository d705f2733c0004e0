// A list of published sets by their keys, and what each viewer has seen of it, told exactly.
#![tactic(auto)]

mod laws;
mod machine;

pub use laws::{acts_keep, key_stays, last_may_enter, learnt_is_least, numbers_never_fall};
pub use machine::Core;
