/// A member of one of the sets of a place, or one of its truth values. A place has it where some of the paths that lead there
/// bear it, maybe not all.
#[derive(Clone, Copy, Debug, Drop, PartialEq, Eq)]
pub enum Member {
    /// Every place has it, and every path bears it.
    Whole,
    /// A `type` was in the tag of a script.
    Typed,
    /// A piece of text ended in `-` or `--!`, in a comment.
    CommentDash,
    /// A piece of text ended in `<`, in a script element with a type that is no script's.
    BlockLt,
    /// In the tag's name.
    NameSpot,
    /// Before an attribute.
    BeforeSpot,
    /// In an attribute's name.
    InsideSpot,
    /// After an attribute's name.
    AfterSpot,
    /// A value without quotes has begun.
    UnquotedValue,
    /// A value has not begun.
    UnbegunValue,
    /// Before the first character of a URL.
    PartStart,
    /// In the beginning of a URL, whatever that beginning spells.
    PartOpen,
    /// In the beginning of a URL, after a value of data.
    PartOpenhole,
    /// In a URL, where no scheme can end any more.
    PartPrequery,
    /// After the `?` or `#` of a URL.
    PartQuery,
    /// After a scheme that runs code.
    PartBad,
    /// A slash would begin a regular expression.
    SenseRe,
    /// A slash would be a division.
    SenseDiv,
    /// A slash would be one or the other, which cannot be told.
    SenseBrace,
    /// A piece of script ended in a word.
    JsWord,
    /// A piece of script ended in a number.
    JsNum,
    /// A piece of script ended in `<`.
    JsLt,
    /// A piece of script ended in `/`, a division.
    JsSlash,
    /// A piece of script ended in `+`.
    JsPlus,
    /// A piece of script ended in `-`.
    JsMinus,
    /// A piece of script ended in `#`.
    JsHash,
    /// A piece of script ended in the slash that begins a regular expression.
    RegexpSlash,
    /// A piece of script ended in `*`, in a comment.
    JsStar,
    /// A piece of style ended in a word.
    CssWord,
    /// A piece of style ended in `/`.
    CssSlash,
    /// A piece of style ended in `<`.
    CssLt,
    /// A piece of style ended in `*`, in a comment.
    CssStar,
}
