ghost use Rattle.std.specs.Prelude.{◌≡◌};
ghost use Rattle.css_lexer.specs.Classes.{style_class};

/// The classes of bytes that a style tells apart. (CSS Syntax Level 3, section 4.2.)
#[derive(Clone, Copy, Debug, Drop, PartialEq, Eq)]
pub enum StyleClass {
    /// Tab and space.
    Blank,
    /// Line feed, form feed and carriage return.
    Newline,
    /// What a word is made of: letters, digits, `_`, `-` and each byte past ASCII.
    WordByte,
    /// A backslash.
    ReverseSolidus,
    QuotationMark,
    Apostrophe,
    LeftParenthesis,
    RightParenthesis,
    /// A slash.
    Solidus,
    Asterisk,
    LessThan,
    /// `[`, `]`, `{`, `}`, `;` and `@`.
    Punctuation,
    OtherByte,
}

/// The class of a byte. Does not allocate.
#[inline(always)]
#[tactic(auto, unfolding(crate::specs::Classes::style_class))]
pub fn class_of(byte: u8) -> StyleClass
    ensures { result ≡ style_class byte }
{
    match byte {
        b'\t' | b' ' => StyleClass::Blank,
        b'\n' | 12 | b'\r' => StyleClass::Newline,
        b'0'..=b'9' | b'A'..=b'Z' | b'a'..=b'z' | b'_' | b'-' | 128..=255 => StyleClass::WordByte,
        b'\\' => StyleClass::ReverseSolidus,
        b'"' => StyleClass::QuotationMark,
        b'\'' => StyleClass::Apostrophe,
        b'(' => StyleClass::LeftParenthesis,
        b')' => StyleClass::RightParenthesis,
        b'/' => StyleClass::Solidus,
        b'*' => StyleClass::Asterisk,
        b'<' => StyleClass::LessThan,
        b'[' | b']' | b'{' | b'}' | b';' | b'@' => StyleClass::Punctuation,
        _ => StyleClass::OtherByte,
    }
}
