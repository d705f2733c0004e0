// How a URL is read, byte by byte: its part, its scheme and its percent triples, in a page and on the path of a template.
#![tactic(auto)]

mod class;
mod kept;
mod laws;
mod schemes;

pub use class::{UrlClass, url_class_of};
pub use kept::{is_kept, is_unreserved};
pub use laws::{
    clashes_are_joined, code_is_bad, pages_have_schemes, query_is_read, scheme_is_read,
    spots_are_alike, triples_are_whole, url_language_has_laws, written_is_plain,
    written_pages_have_schemes, written_reads_back,
};
pub use schemes::{is_code_scheme, is_safe_scheme};
