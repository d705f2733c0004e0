// Pages, by the paths that their executions take: which path that is, what a page is, that it is sound, and that a chart of its set gives it.
#![tactic(auto)]

mod laws;
mod taken_laws;

pub use laws::{
    pages_are_sound, pages_go_by_the_chart, pages_of_one_path_have_one_shape,
    sound_pages_have_the_shape_of_their_path, sound_pages_read_with_their_texts,
};
pub use taken_laws::meaning_takes_path;
