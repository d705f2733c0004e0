// The steps of HTML: where a text of a template leads to from a place, and a hole.
#![tactic(auto)]

mod bodies;
mod element_origins;
mod element_showing;
mod escape_evidences;
mod escaper;
mod evidence;
mod fed_origins;
mod hole;
mod hole_evidences;
mod hole_laws;
mod last_point;
mod laws;
mod origins;
mod predefined;
mod printed;
mod refusal;
mod script_element_showing;
mod script_origins;
mod script_showing;
mod sets;
mod showing;
mod steps;
mod style_fed_origins;
mod style_origins;
mod style_showing;

pub use escape_evidences::escape_evidence;
pub use escaper::Escaper;
pub use evidence::Evidence;
pub use hole::after_hole;
pub use hole_evidences::{hole_evidence, hole_from};
pub use hole_laws::{
    accepts_hole_on_all_paths, escapers_keep_order, hole_covers_paths, hole_keeps_order,
    hole_keeps_valid, hole_members_come_from_one, hole_of_one_path, refused_escaper_has_evidence,
    refused_hole_has_evidence,
};
pub use last_point::last_apart;
pub use laws::{
    accepts_all_paths, covers_paths, keeps_order, keeps_valid, members_come_from_one, one_path,
    one_path_before, paths_that_met_apart, refusal_has_evidence,
};
pub use predefined::may_escape;
pub use printed::print_place;
pub use showing::{text_evidence, text_from};
pub use steps::{after_text, place_before};
