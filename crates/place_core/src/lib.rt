// What the lexers and the sanitizers share: how a page is read, in the words of the HTML Standard, and the types that
// say where in a page something stands.
#![tactic(auto)]

mod apart;
mod bare;
mod bearing;
mod body;
mod chain;
mod chars;
mod code;
mod css;
mod css_tails;
mod element;
mod joining;
mod joins_shown;
mod js;
mod js_tails;
mod kind;
mod laws;
mod member;
mod mode;
mod parts;
mod place;
mod prefix;
mod quotes;
mod san;
mod senses;
mod spots;
mod step;
mod step_err;
mod str_chars;
mod tag_of;
mod tag_place;
mod validity;
mod value_place;

pub use apart::{has_apart, spells_apart};
pub use bare::Bare;
pub use bearing::{has, same};
pub use body::Body;
pub use chain::Chain;
pub use chars::Chars;
pub use code::Code;
pub use css::Css;
pub use css_tails::CssTails;
pub use element::Element;
pub use joining::join;
pub use joins_shown::join_evidence;
pub use js::Js;
pub use js_tails::JsTails;
pub use kind::Kind;
pub use laws::{
    below_is_order, conflict, has_grows, join_has, join_is_above, join_is_least, join_keeps_valid,
    join_same, join_swapped,
};
pub use member::Member;
pub use mode::Mode;
pub use parts::Parts;
pub use place::{Place, TEXT};
pub use prefix::Prefix;
pub use quotes::Quotes;
pub use san::San;
pub use senses::Senses;
pub use spots::Spots;
pub use step::Step;
pub use step_err::StepErr;
pub use str_chars::StrChars;
pub use tag_of::TagOf;
pub use tag_place::TagPlace;
pub use validity::is_valid;
pub use value_place::ValuePlace;
