use crate::js_tails::JsTails;
use crate::senses::Senses;

/// A place in a script, as after `<script>` or after `<b onclick="`.
#[derive(Clone, Copy, Debug, Drop, PartialEq, Eq)]
pub enum Js {
    /// In code, as after `x = `.
    Code(Senses, JsTails),
    /// In a string with double quotes, as after `x = "`.
    Dq,
    /// In a string with single quotes, as after `x = '`.
    Sq,
    /// In a regular expression, as after `x = /a`; true where a piece of text may have ended in the slash that begins it, as `x = /`.
    Regexp(bool),
    /// In a comment to the end of the line, as after `// a`; with what a slash would be after it.
    Line(Senses),
    /// In a comment of any length, as after `/* a`, with what a slash would be after it; true where a piece of text
    /// may have ended in `*`.
    Block(Senses, bool),
}
