// The texts of a template as a page gets them.
#![tactic(auto)]

mod laws;
mod pending;
mod plain_runs;
mod reference;
mod script_writer;
mod text_writer;

pub use laws::{
    emits_the_same, filled_paths_are_readings, keeps_shape, keeps_shape_at_holes, pages_fill_paths,
    pages_read_as_paths, readings_are_filled_paths, stands_at_start, stands_somewhere,
    stands_where_nothing_is_pending, value_language_has_laws, written_on_paths,
};
pub use text_writer::write_text;
