// The scheme of a URL, as the tokens of a page show it.
#![tactic(auto)]

mod reading;
mod scheme;

pub use reading::read_scheme;
pub use scheme::Scheme;
