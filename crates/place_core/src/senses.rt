/// What a slash in a script would be: a set, since several paths may lead to one point of a template.
#[derive(Clone, Copy, Debug, Drop, PartialEq, Eq)]
pub struct Senses {
    /// The beginning of a regular expression, as after `x = `.
    pub re: bool,
    /// A division, as after `x`.
    pub div: bool,
    /// One or the other, which cannot be told, as after `}`.
    pub brace: bool,
}
