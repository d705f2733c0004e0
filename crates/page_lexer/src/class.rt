ghost use Rattle.std.specs.Prelude.{◌≡◌};
ghost use Rattle.page_lexer.specs.Classes as spec;

/// The classes of bytes that the reading of a page tells apart.
#[derive(Clone, Copy)]
pub enum PageClass {
    /// Tab, line feed, form feed, carriage return and space.
    White,
    ExclamationMark,
    QuotationMark,
    Apostrophe,
    HyphenMinus,
    Solidus,
    LessThan,
    EqualsSign,
    GreaterThan,
    QuestionMark,
    /// A letter of ASCII, of either case.
    Letter,
    OtherByte,
}

/// The class of a byte.
#[inline(always)]
#[tactic(auto, unfolding(place_core::specs::page::Classes::class_of))]
pub fn class_of(byte: u8) -> PageClass
    ensures { result ≡ spec.byte_class byte }
{
    match byte {
        b'\t' | b'\n' | 12 | b'\r' | b' ' => PageClass::White,
        b'!' => PageClass::ExclamationMark,
        b'"' => PageClass::QuotationMark,
        b'\'' => PageClass::Apostrophe,
        b'-' => PageClass::HyphenMinus,
        b'/' => PageClass::Solidus,
        b'<' => PageClass::LessThan,
        b'=' => PageClass::EqualsSign,
        b'>' => PageClass::GreaterThan,
        b'?' => PageClass::QuestionMark,
        b'A'..=b'Z' | b'a'..=b'z' => PageClass::Letter,
        _ => PageClass::OtherByte,
    }
}
