// The calls of tables of cases on places, steps over texts and holes, written texts, charts and explanations.
#![tactic(auto)]

mod charts;
mod evidence;
mod explanations;
mod pairs;
mod path;
mod read_code;
mod read_member;
mod read_place;
mod read_url;
mod script_parts;
mod showings;
mod splitter;
mod steps;
mod style_parts;
mod url_parts;
mod written;

pub use charts::put_charts;
pub use explanations::put_explained;
pub use script_parts::put_script_parts;
pub use steps::put_places;
pub use style_parts::put_style_parts;
pub use url_parts::put_url_parts;
pub use written::put_written;
