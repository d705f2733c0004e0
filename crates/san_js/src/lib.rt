// The sanitizers of scripts: each makes of any text, or of a datum, bytes that stand for it in a script.
#![tactic(auto)]

mod data;
mod quoted;
mod regexp;
mod string;
mod value;

pub use regexp::{js_regexp, push_js_regexp};
pub use string::{js_string, push_js_string};
pub use value::{js_value, push_js_value};
