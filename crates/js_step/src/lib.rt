// How the place of several paths in a script is moved: by a byte of text, by a text of characters, by the end of a node, and by a hole.
#![tactic(auto)]

mod begin;
mod cause;
mod characters;
mod ends;
mod escapes;
mod evidence;
mod feeding;
mod hole;
mod laws;
mod literals;
mod markup;
mod order;
mod places;
mod point;
mod refusals;
mod scan;
mod script_read;
mod senses;
mod steps;
mod text;
mod white;
mod word;

pub use begin::start;
pub use cause::ScriptCause;
pub use characters::after_text;
pub use ends::{refused_at_cut, refused_at_end};
pub use evidence::{
    ScriptShown, scripts_clash, scripts_shown, shown_at_byte, shown_by, split_shows,
};
pub use hole::{after_hole, at_hole, sanitizer};
pub use laws::{
    empty_texts_keep_scripts, is_exact_on_one_script, is_exact_on_one_script_text,
    kept_words_suffice, script_paths_are_scanned, script_senses_share, script_senses_unite,
    script_tails_grow, script_texts_stay_valid, scripts_begin_as_one, scripts_stay_valid,
};
pub use literals::is_outside;
pub use order::{scripts_come_from, scripts_grow};
pub use places::{place, shown};
pub use refusals::refused;
pub use scan::{
    ScriptAt, ScriptEscape, ScriptHeld, ScriptLetters, ScriptLiterals, ScriptMarkup, ScriptPart,
    ScriptScan, ScriptTrail, ScriptUnfinished, ScriptWord,
};
pub use script_read::{RefusedScript, ScriptRead};
pub use text::next;
