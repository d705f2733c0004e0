// The sanitizers of styles: each makes of any text bytes that are plain in their place of a style and read back there.
#![tactic(auto)]

mod string;
mod undone;
mod unsafe_words;
mod value;

pub use string::{css_string, push_css_string};
pub use value::{FAILSAFE, css_value, push_css_value};
