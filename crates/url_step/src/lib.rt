// How the set of parts of a URL at which several paths of a template stand is moved: by a byte of text, by a text of characters, and by a hole.
#![tactic(auto)]

mod characters;
mod hole;
mod laws;
mod letters;
mod text;
mod text_point;

pub use characters::after_text;
pub use hole::{after_hole, at_hole};
pub use laws::{
    colon_is_shown, covers_parts, covers_urls, hole_is_shown, is_exact_on_one_part,
    is_exact_on_one_text, parts_agree, parts_come_from, parts_come_from_hole, parts_grow,
    parts_stay_valid, texts_come_from, texts_cover, texts_grow, texts_stay_valid,
};
pub use text::{next, refused};
pub use text_point::{OpenTriple, TextPoint};
