// The sanitizers of HTML: each makes of any text bytes that are plain in their place of a page and are read back there.
#![tactic(auto)]

mod escape;
mod failsafe;
mod name;
mod unquoted;

pub use escape::{attr, html, push_html};
pub use failsafe::FAILSAFE;
pub use name::{attr_name, push_attr_name};
pub use unquoted::{attr_nospace, push_attr_nospace};
