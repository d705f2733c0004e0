// One byte of a template's text: what it leads to from where the text has been read to, and whether it is refused there. The step
// and the refusal at a place are inlined: a scan state that is passed to a call and back is copied, which takes three times as long.
#![tactic(auto)]

mod cause;
mod class;
mod comment_stage;
mod comments;
mod contents;
mod declaration;
mod ends;
mod errors;
mod fed_run;
mod last_lexeme;
mod laws;
mod names;
mod quoting;
mod references;
mod refusals;
mod scan;
mod script_element_refusals;
mod script_elements;
mod script_pending;
mod script_places;
mod script_refusals;
mod script_steps;
mod scripts;
mod slices;
mod step;
mod style_elements;
mod style_refusals;
mod styles;
mod tags;
mod texts;
mod triple;
mod types;
mod url_refusals;
mod urls;
mod values;

pub use cause::Cause;
pub use class::{Class, Letter, class_of};
pub use comment_stage::CommentStage;
pub use ends::{end_place, is_shown, shown_place};
pub use last_lexeme::last_lexeme_start;
pub use laws::scripts_read_on;
pub use names::{is_name_of, may_be_name_of};
pub use quoting::Quoting;
pub use references::{
    OpenReference, Outcome, ReferenceForm, broken_char, is_equals, meaning, turn,
};
pub use refusals::{at_byte, at_end, lexeme_at_end};
pub use scan::Scan;
pub use script_element_refusals::{refused_at_cut, refused_in_element};
pub use script_elements::{behind_pending, letters_of, may_end, opening};
pub use script_pending::ScriptPending;
pub use script_refusals::{
    ends_between, is_told_at_node_end, refused_in_script, script_at_byte, script_at_end,
    script_begins, script_too_deep, stops,
};
pub use script_steps::{InWord, ScriptStep, script_step};
pub use scripts::{
    after_byte as after_script_byte, after_bytes as after_script_bytes, begun as begun_script,
    broken as broken_script, script_at_cut,
};
pub use slices::pending;
pub use step::next;
pub use style_elements::{behind_less, behind_name, end_tag_goes_on};
pub use style_refusals::refused_in_style;
pub use styles::{broken as broken_style, style_at_cut};
pub use tags::INSIDE;
pub use triple::Triple;
pub use url_refusals::refused_in_url;
pub use urls::broken_parts;
pub use values::BEGUN;
