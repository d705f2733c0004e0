// The sanitizers of URLs: each makes of any text bytes that are plain in their part of a URL and read back there.
#![tactic(auto)]

mod filter;
mod kept;
mod norm;
mod open;
mod query;
mod run;
mod triple;

pub use filter::{FAILSAFE, url_filter};
pub use norm::{push_url_norm, url_norm};
pub use open::{push_url_open, url_open};
pub use query::{push_url_query, url_query};
