// How styles are read, byte by byte: style sheets in the element `style`, and declarations in the attribute `style`. (CSS Syntax Level 3,
// section 4.3.)
#![tactic(auto)]

mod class;
mod laws;
mod written;

pub use class::{StyleClass, class_of};
pub use laws::{
    strings_read_back, style_language_has_laws, values_read_back_in_code, values_stay_in_urls,
    what_is_written_reads_alike,
};
pub use written::{is_forbidden, string_digits};
