use crate::func::Func;
use crate::word::Word;
use page_io::{List, Text};

/// One symbol of the grammar of trees.
#[derive(Debug, Drop)]
pub struct Symbol {
    /// What it is.
    pub kind: SymbolKind,
    /// The line of the file on which it begins.
    pub line: u32,
    /// Whether it begins where the token before it ends, or where the file begins.
    pub touches: bool,
}

/// What a symbol is.
#[derive(Debug, Drop)]
pub enum SymbolKind {
    /// Text outside actions. Texts with nothing but comments between them are one, with a seam at each comment.
    Text(Text, List<Seam>),
    /// `{{` or `{{-`, with its offset, and the line of the byte before it, which is 1 at the beginning of the file.
    Open { start: u32, before: u32 },
    /// `}}` or `-}}`, with the offset after it.
    Close { end: u32 },
    /// A word of the language.
    Word(Word),
    /// The name of a function.
    Function(Func),
    /// Any other name.
    Unknown,
    /// `.` and a name, which is kept without the dot.
    Field(Text),
    /// `.`
    Dot,
    /// `$`, or `$` and a name, which is kept without `$`.
    Variable(Text),
    /// A number, with its value.
    Number(i64),
    /// A string, with its value.
    Str(Text),
    /// `:=`
    Declare,
    /// `=`
    Assign,
    /// `|`
    Bar,
    /// `,`
    Comma,
    /// `(`
    Left,
    /// `)`
    Right,
}

/// Where a text goes on after a comment: its byte `at` is on the line `line` of the file.
#[derive(Clone, Copy, Debug, PartialEq, Eq)]
pub struct Seam {
    pub at: u32,
    pub line: u32,
}
