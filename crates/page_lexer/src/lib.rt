// The tokens of a finished page, and a listing of them.
#![tactic(auto)]

mod characters;
mod class;
mod content_states;
mod contents;
mod declaration;
mod elements;
mod markup;
mod page;
mod parts;
mod print;
mod print_lines;
mod print_pieces;
mod print_tags;
mod reading;
mod state;
mod tag_states;
mod tags;
mod token;

pub use page::read_page;
pub use print::print_tokens;
pub use token::{Attr, PageToken, Read, Tag, What};
