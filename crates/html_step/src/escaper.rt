/// An escaper that a template may name. (The predefined escapers of Go's `html/template`.)
#[derive(Clone, Copy, Debug, Drop, PartialEq, Eq)]
pub enum Escaper {
    /// `html`: a value is written as text.
    Html,
    /// `urlquery`: a value is written in the query of a URL.
    Urlquery,
}
