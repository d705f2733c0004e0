use page_io::Text;

/// One token of a template file. Its text is the bytes of the file from `start` to `end`.
#[derive(Debug, Drop, PartialEq, Eq)]
pub struct Token {
    /// What it is.
    pub kind: TokenKind,
    /// The offset of its first byte, counted in bytes from 0.
    pub start: u32,
    /// The offset after its last byte.
    pub end: u32,
}

/// What a token is.
#[derive(Debug, Drop, PartialEq, Eq)]
pub enum TokenKind {
    /// Text outside actions, as trimming leaves it. It is never empty.
    Text,
    /// `{{`, or `{{-`, which trims the text before.
    Open,
    /// `}}`, or `-}}`, which trims the text after.
    Close,
    /// A comment, from `/*` to `*/`.
    Comment,
    /// A letter or `_`, then letters, digits and `_`. Letters and digits are ASCII's.
    Name,
    /// `.` and a name.
    Field,
    /// `.`
    Dot,
    /// `$`, or `$` and a name.
    Variable,
    /// A number, with its value.
    Number(i64),
    /// A string in double quotes or backquotes, with its value.
    Str(Text),
    /// `:=`
    Declare,
    /// `=`
    Assign,
    /// `|`
    Bar,
    /// `,`
    Comma,
    /// `(`
    Left,
    /// `)`
    Right,
}
