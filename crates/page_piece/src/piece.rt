ghost use Rattle.std.specs.Prelude.{◌≡◌};
ghost use Rattle.page_piece.specs.Words.{kind_word};

use page_io::Text;

/// What a piece of a script or a style is. White space is none.
#[derive(Clone, Copy, Debug)]
pub enum PieceKind {
    /// A name or a keyword of a script (ECMA-262, section 12.7), or a name of a style with its escapes (CSS Syntax Level 3, section
    /// 4.3.11).
    Word,
    /// A number of a script (ECMA-262, section 12.9.3).
    Number,
    /// A string with its quotes (ECMA-262, section 12.9.4; CSS Syntax Level 3, section 4.3.5), or what the end of the text left of it.
    String,
    /// A string or a regular expression that the end of a line cuts, up to that end; or a URL of a style that is none, up to its `)`.
    BadString,
    /// A comment with its delimiters; one up to the end of a line is without that end.
    Comment,
    /// A run of `+` or of `-` of a script, or a character by itself.
    Punct,
    /// A template literal of a script with its backquotes, and all code in it (ECMA-262, section 12.9.6).
    Template,
    /// A regular expression of a script with its slashes (ECMA-262, section 12.9.5).
    Regexp,
    /// A longest run of a style's characters that are in no other piece, white space among them.
    Plain,
    /// A URL of a style with its `url(` and `)` (CSS Syntax Level 3, section 4.3.6).
    Url,
    /// The rest of a script from the backquote of a template literal on in which literals nest too deep.
    Unfinished,
}

impl PieceKind {
    /// The word by which a listing of tokens names the kind, in lower case.
    pub fn word(self) -> &'static str
        ensures { result.now ≡ kind_word self }
    {
        match self {
            PieceKind::Word => "word",
            PieceKind::Number => "number",
            PieceKind::String => "string",
            PieceKind::BadString => "badstring",
            PieceKind::Comment => "comment",
            PieceKind::Punct => "punct",
            PieceKind::Template => "template",
            PieceKind::Regexp => "regexp",
            PieceKind::Plain => "plain",
            PieceKind::Url => "url",
            PieceKind::Unfinished => "unfinished",
        }
    }
}

/// A piece of a script or a style: its kind, and its characters as they stand.
#[derive(Debug, Drop)]
pub struct Piece {
    pub kind: PieceKind,
    pub text: Text,
}
