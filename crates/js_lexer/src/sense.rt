/// What a slash would be that begins no comment. (ECMA-262, section 12: the goal symbols of the lexical grammar.)
#[derive(Clone, Copy, Debug, Drop, PartialEq, Eq)]
pub enum Sense {
    /// The beginning of a regular expression, as after `x = `.
    Re,
    /// A division, as after `x`.
    Div,
    /// One or the other, which tokens alone cannot tell: after `}`, and after `of`, `new` and other words that are names in some
    /// places. A page divides there, and a template is refused, outside of template literals.
    Brace,
}
