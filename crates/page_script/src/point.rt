use js_lexer::Sense;

/// How much is held back of what may be `\<` or `\x3C`.
#[derive(Clone, Copy)]
pub enum ReadEscape {
    None,
    /// `\`.
    Backslash,
    /// `\x`.
    X,
    /// `\x3`.
    X3,
    /// `\` and a carriage return, which are one with a line feed after them.
    Return,
}

/// The token in which a script has been read to.
#[derive(Clone, Copy)]
pub enum ReadAt {
    /// In code, behind a token or at the beginning: what a slash would be.
    Code(Sense),
    Word,
    Number,
    /// In a run of `+`: whether it is odd so far.
    Pluses(bool),
    /// In a run of `-`: whether it is odd so far.
    Minuses(bool),
    /// Behind a slash that may begin a comment: what it is otherwise.
    Slash(Sense),
    /// In a comment to the end of the line: what a slash would be after it.
    Line(Sense),
    /// In a comment of any length: what a slash would be after it; whether its last byte was a `*` that may close it.
    Block(Sense, bool),
    /// In a string, between quotation marks (true) or apostrophes.
    InString(bool, ReadEscape),
    /// In a regular expression; whether within `[ ]`.
    InRegexp(bool, ReadEscape),
    /// In the characters of a template literal; whether the last one was a `$`.
    InTemplate(ReadEscape, bool),
    /// Behind the backquote of a literal that nests too deep.
    TooDeep,
}

/// The template literals that are open, each with how many braces are open in its code. They stand at the end, the innermost first,
/// behind so many that are free.
#[derive(Clone, Copy)]
pub struct ReadLiterals {
    pub braces: [u128; 16],
    pub free: usize,
}

/// Where the reading of tokens stands.
#[derive(Clone, Copy)]
pub struct ReadPoint {
    pub literals: ReadLiterals,
    pub at: ReadAt,
}
