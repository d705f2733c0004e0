ghost use Rattle.std.specs.Prelude.{◌≡◌};
ghost use Rattle.js_lexer.specs.Classes as spec;

/// The classes of bytes that scripts tell apart.
#[derive(Clone, Copy, Debug, Drop, PartialEq, Eq)]
pub enum ScriptClass {
    /// Tab, vertical tab, form feed and space.
    Space,
    /// Line feed and carriage return.
    LineEnd,
    /// A letter, `_`, or a byte past ASCII.
    Letter,
    Digit,
    Dollar,
    Backslash,
    QuotationMark,
    Apostrophe,
    GraveAccent,
    Solidus,
    Asterisk,
    Plus,
    Minus,
    LessThan,
    GreaterThan,
    NumberSign,
    ExclamationMark,
    OpenBrace,
    CloseBrace,
    OpenBracket,
    CloseBracket,
    Dot,
    /// Another character of its own after which a slash begins a regular expression, as `=`. Not `{`, `[`, `<`, `>`, `!` and
    /// `*`, which have classes themselves.
    Opens,
    /// Another character of its own after which a slash divides: `)`; and `@`, NUL, the control bytes that are no white space
    /// and end no line, and DEL.
    Closes,
}

/// The class of a byte.
#[tactic(auto, unfolding(crate::specs::Classes::class_of))]
pub fn class_of(byte: u8) -> ScriptClass
    ensures { result ≡ spec.class_of byte }
{
    match byte {
        b'\t' | 11 | 12 | b' ' => ScriptClass::Space,
        b'\n' | b'\r' => ScriptClass::LineEnd,
        b'0'..=b'9' => ScriptClass::Digit,
        b'A'..=b'Z' | b'a'..=b'z' | b'_' | 128..=255 => ScriptClass::Letter,
        b'$' => ScriptClass::Dollar,
        b'\\' => ScriptClass::Backslash,
        b'"' => ScriptClass::QuotationMark,
        b'\'' => ScriptClass::Apostrophe,
        b'`' => ScriptClass::GraveAccent,
        b'/' => ScriptClass::Solidus,
        b'*' => ScriptClass::Asterisk,
        b'+' => ScriptClass::Plus,
        b'-' => ScriptClass::Minus,
        b'<' => ScriptClass::LessThan,
        b'>' => ScriptClass::GreaterThan,
        b'#' => ScriptClass::NumberSign,
        b'!' => ScriptClass::ExclamationMark,
        b'{' => ScriptClass::OpenBrace,
        b'}' => ScriptClass::CloseBrace,
        b'[' => ScriptClass::OpenBracket,
        b']' => ScriptClass::CloseBracket,
        b'.' => ScriptClass::Dot,
        b',' | b'=' | b'%' | b'&' | b'|' | b'^' | b'?' | b'~' | b'(' | b':' | b';' =>
            ScriptClass::Opens,
        _ => ScriptClass::Closes,
    }
}
