use place_core::{CssTails, Parts};

/// No path ended in what may go on.
pub const NO_TAILS: CssTails = CssTails {
    word: false,
    slash: false,
    lt: false,
};

/// Where a URL begins.
pub const URL_START: Parts = Parts {
    start: true,
    opened: None,
    openhole: false,
    prequery: false,
    query: false,
    bad: false,
};

/// How much of the word `url`, in any case, a word is so far.
#[derive(Clone, Copy)]
pub enum StyleWord {
    U,
    Ur,
    Url,
    Other,
}

/// What has been read of an escape. (CSS Syntax Level 3, section 4.3.7.)
#[derive(Clone, Copy)]
pub enum StyleEscape {
    /// None is open.
    None,
    /// A backslash.
    Backslash,
    /// A backslash and so many hexadecimal digits, from 1 to 6.
    Digits(u8),
    /// In a string, a backslash and a carriage return.
    Return,
}

/// The quotes of a string.
#[derive(Clone, Copy)]
pub enum StyleQuote {
    Double,
    Single,
}

/// How much of a percent triple has been read in a URL of a style.
#[derive(Clone, Copy)]
pub enum StyleTriple {
    /// None has begun.
    None,
    /// `%`.
    Percent,
    /// `%` and a digit.
    Digit,
}

/// Where a text of a style has been read to, on all paths together.
#[derive(Clone, Copy)]
pub enum StyleScan {
    /// Between tokens, or at the beginning of a text behind what the paths ended in; in a word that some path has from
    /// before the text.
    Code(CssTails),
    /// In a word of this text.
    Word(StyleWord, StyleEscape),
    /// In an escape of a word that some path has from before the text.
    SplitEscape(StyleEscape),
    /// After a `/` of this text.
    Solidus,
    /// After a `<` of this text.
    LessThan,
    /// In a comment; true after a `*` of this text.
    Comment(bool),
    /// In a comment, at the beginning of a text, where some path has a `*` before it.
    StarBefore,
    /// In a string.
    InString(StyleQuote, StyleEscape),
    /// After `url(` and blanks.
    Fresh,
    /// In a URL without quotes.
    BareUrl(Parts, StyleTriple),
    /// In a URL in quotes.
    QuotedUrl(StyleQuote, StyleEscape, Parts, StyleTriple),
    /// After a URL.
    Ended,
}
