ghost use Rattle.std.specs.Prelude.{◌≡◌};
ghost use Rattle.html_scan.specs.ClassViews.{class_at};
ghost use Rattle.place_core.specs.page.Classes as spec;

/// A letter, of both cases.
#[derive(Clone, Copy)]
pub enum Letter {
    /// A to F.
    Hexadecimal,
    /// X.
    X,
    /// The others.
    Other,
}

/// The classes of bytes that HTML tells apart.
#[derive(Clone, Copy)]
pub enum Class {
    /// Tab, line feed, form feed, carriage return and space.
    White,
    ExclamationMark,
    QuotationMark,
    NumberSign,
    Ampersand,
    Apostrophe,
    HyphenMinus,
    Solidus,
    Digit,
    Semicolon,
    LessThan,
    EqualsSign,
    GreaterThan,
    QuestionMark,
    GraveAccent,
    Letter(Letter),
    OtherByte,
}

/// The class of a byte.
#[inline(always)]
#[tactic(auto, unfolding(place_core::specs::page::Classes::class_of))]
pub fn class_of(byte: u8) -> Class
    ensures { class_at result ≡ spec.class_of byte }
{
    match byte {
        b'\t' | b'\n' | 12 | b'\r' | b' ' => Class::White,
        b'!' => Class::ExclamationMark,
        b'"' => Class::QuotationMark,
        b'#' => Class::NumberSign,
        b'&' => Class::Ampersand,
        b'\'' => Class::Apostrophe,
        b'-' => Class::HyphenMinus,
        b'/' => Class::Solidus,
        b'0'..=b'9' => Class::Digit,
        b';' => Class::Semicolon,
        b'<' => Class::LessThan,
        b'=' => Class::EqualsSign,
        b'>' => Class::GreaterThan,
        b'?' => Class::QuestionMark,
        b'`' => Class::GraveAccent,
        b'A'..=b'F' | b'a'..=b'f' => Class::Letter(Letter::Hexadecimal),
        b'X' | b'x' => Class::Letter(Letter::X),
        b'A'..=b'Z' | b'a'..=b'z' => Class::Letter(Letter::Other),
        _ => Class::OtherByte,
    }
}
