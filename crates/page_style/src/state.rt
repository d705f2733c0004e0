/// How much of the word `url`, in any case, a word is so far.
#[derive(Clone, Copy)]
pub enum UrlWord {
    U,
    Ur,
    Url,
    Other,
}

/// What has been read of an escape. (CSS Syntax Level 3, section 4.3.7.)
#[derive(Clone, Copy)]
pub enum Escape {
    /// None is open.
    None,
    /// A backslash.
    Backslash,
    /// A backslash and so many hexadecimal digits, from 1 to 6.
    Digits(u8),
    /// In a string, a backslash and a carriage return.
    Return,
}

/// The quotes of a string.
#[derive(Clone, Copy)]
pub enum Quote {
    Double,
    Single,
}

/// Where in a url token the next byte stands. (CSS Syntax Level 3, section 4.3.6.)
#[derive(Clone, Copy)]
pub enum UrlForm {
    /// After `url(` and white space.
    Fresh,
    /// In a URL without quotes.
    Bare,
    /// In a URL in quotes.
    Quoted(Quote, Escape),
    /// After the URL.
    Ended,
}

/// Where a style has been read to. (CSS Syntax Level 3, section 4.3.)
#[derive(Clone, Copy)]
pub enum State {
    /// Between tokens; whether white space or a comment is the last that was read.
    Between(bool),
    /// The same, after a `<`.
    LessThan,
    /// In a word.
    Word(UrlWord, Escape),
    /// After a `/` with which a comment may begin; whether white space or a comment stands before it.
    Solidus(bool),
    /// In a comment; true after a `*` of it.
    Comment(bool),
    /// In a string.
    InString(Quote, Escape),
    /// In a URL that is none, up to its `)`.
    BadUrl,
    /// In a url token.
    InUrl(UrlForm),
}
