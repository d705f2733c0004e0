use js_lexer::Sense;
use place_core::{JsTails, Senses};

/// No path ended in what may go on.
pub const NO_TAILS: JsTails = JsTails {
    word: false,
    num: false,
    lt: false,
    slash: false,
    plus: false,
    minus: false,
    hash: false,
};

/// How much is held back of what may be `\<` or `\x3C`.
#[derive(Clone, Copy)]
pub enum ScriptEscape {
    None,
    /// `\`.
    Backslash,
    /// `\x`.
    X,
    /// `\x3`.
    X3,
    /// `\` and a carriage return, which are one with a line feed after them.
    Return,
}

/// What a word begins with: so many of its bytes, and no more than one past the longest keyword.
#[derive(Clone, Copy)]
pub struct ScriptWord {
    pub bytes: [u8; 11],
    pub count: usize,
}

/// The lexeme in which a text of a script has been read to.
#[derive(Clone, Copy)]
pub enum ScriptAt {
    /// In code, behind a token or at the beginning: what a slash would be.
    Code(Sense),
    Word(ScriptWord),
    Number,
    /// In a run of `+`: whether it is odd so far.
    Pluses(bool),
    /// In a run of `-`: whether it is odd so far.
    Minuses(bool),
    /// Behind a slash that may begin a comment: what it is otherwise.
    Slash(Sense),
    /// In a comment to the end of the line: what a slash would be after it.
    Line(Sense),
    /// In a comment of any length: what a slash would be after it; whether its last byte was a `*` that may close it.
    Block(Sense, bool),
    /// In a string, between quotation marks (true) or apostrophes.
    InString(bool, ScriptEscape),
    /// In a regular expression; whether within `[ ]`.
    InRegexp(bool, ScriptEscape),
    /// In the characters of a template literal; whether the last one was a `$`.
    InTemplate(ScriptEscape, bool),
    /// Behind the backquote of a literal that nests too deep.
    TooDeep,
}

/// The template literals that are open, each with how many braces are open in its code. They stand at the end, the innermost first,
/// behind so many that are free.
#[derive(Clone, Copy)]
pub struct ScriptLiterals {
    pub braces: [u128; 16],
    pub free: usize,
}

/// The bytes that are held back of what may be white space past ASCII.
#[derive(Clone, Copy)]
pub enum ScriptHeld {
    None,
    One(u8),
    Two(u8, u8),
}

/// So many letters of `script`.
#[derive(Clone, Copy)]
pub enum ScriptLetters {
    None,
    S,
    Sc,
    Scr,
    Scri,
    Scrip,
    Script,
}

/// The last bytes of code, as long as they begin what HTML or an old browser reads in a script.
#[derive(Clone, Copy)]
pub enum ScriptMarkup {
    None,
    /// `<`, or `</` (true), and letters.
    Tag(bool, ScriptLetters),
    /// `<!`.
    LessBang,
    /// `<!-`.
    LessBangMinus,
    /// `<!--`.
    Opened,
    /// `#`.
    Hash,
    /// `#!`.
    HashBang,
    /// `-`.
    Minus,
    /// `--`.
    Minuses,
    /// `-->`.
    Closed,
}

/// The bytes of an escape of a string or a regular expression that more bytes may go on with: a backslash, and those behind it.
#[derive(Clone, Copy)]
pub enum ScriptUnfinished {
    None,
    Backslash,
    One(u8),
    Two(u8, u8),
    Three(u8, u8, u8),
    Four(u8, u8, u8, u8),
}

/// Of the part of a block comment that stands in this text: whether the end of a line is in it, or the first bytes of one stand at its end.
#[derive(Clone, Copy)]
pub enum ScriptPart {
    None,
    /// `E2`, with which U+2028 and U+2029 begin.
    E2,
    /// `E2 80`.
    E280,
    /// The end of a line.
    Line,
}

/// What is known of the bytes that were read, for what is refused and what is written: whether the first character is still ahead; how many
/// bytes have been read, with the first, since a `\u{` that is not closed, since a `[`, and since the outermost template literal; and the
/// part of a block comment.
#[derive(Clone, Copy)]
pub struct ScriptTrail {
    pub fresh: bool,
    pub markup: ScriptMarkup,
    pub escape: ScriptUnfinished,
    pub brace: u128,
    pub bracket: u128,
    pub literal: u128,
    pub lines: ScriptPart,
}

/// Where a text of a script has been read to, on all paths together: what a slash would be; what some path ended in before the text, and
/// whether one ended in the `*` of a comment, until the first character; and what all share.
#[derive(Clone, Copy)]
pub struct ScriptScan {
    pub senses: Senses,
    pub before: JsTails,
    pub star: bool,
    pub at: ScriptAt,
    pub literals: ScriptLiterals,
    pub held: ScriptHeld,
    pub trail: ScriptTrail,
}
