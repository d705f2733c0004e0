// How the place of several paths in a style is moved: by a byte of text, by a text of characters, by the end of a node, and by a hole.
#![tactic(auto)]

mod characters;
mod cut;
mod hole;
mod laws;
mod refusals;
mod scan;
mod style_point;
mod text;

pub use characters::after_text;
pub use cut::{StyleCut, is_start, place, refused_at_cut, start};
pub use hole::{after_hole, at_hole};
pub use laws::{
    covers_styles, empty_texts_keep_styles, is_exact_on_one_style, is_exact_on_one_style_text,
    style_characters_come_from, style_refusal_is_shown, style_texts_come_from, style_texts_cover,
    style_texts_grow, style_texts_stay_valid, styles_agree, styles_come_from,
    styles_come_from_hole, styles_grow, styles_stay_valid,
};
pub use refusals::refused;
pub use scan::{StyleEscape, StyleQuote, StyleScan, StyleTriple, StyleWord};
pub use style_point::StylePoint;
pub use text::next;
