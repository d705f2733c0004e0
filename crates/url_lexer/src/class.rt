ghost use Rattle.std.specs.Prelude.{◌≡◌};
ghost use Rattle.url_lexer.specs.Classes as spec;

/// The classes of bytes that the parts, the scheme and the percent triples of a URL tell apart. Each byte has one.
#[derive(Clone, Copy, Debug, Drop, PartialEq, Eq)]
pub enum UrlClass {
    /// Tab, line feed and carriage return, which are left out of a URL.
    TabOrNewline,
    /// Any other byte up to space, which is left out where a URL begins.
    ControlOrSpace,
    /// `:`
    Colon,
    /// `/`
    Slash,
    /// `?`, and also `#`: a fragment is read as a query.
    QueryMark,
    /// `%`
    Percent,
    /// A digit, or a letter from `a` to `f` in either case.
    Hexadecimal,
    /// Any other byte.
    Other,
}

/// The class of a byte of a URL. (RFC 3986, sections 2.1 and 3; URL Standard, section 4.4.)
#[tactic(auto, unfolding(crate::specs::Classes::url_class_of))]
pub fn url_class_of(byte: u8) -> UrlClass
    ensures { result ≡ spec.url_class_of byte }
{
    match byte {
        9 | 10 | 13 => UrlClass::TabOrNewline,
        0..=32 => UrlClass::ControlOrSpace,
        b':' => UrlClass::Colon,
        b'/' => UrlClass::Slash,
        b'?' | b'#' => UrlClass::QueryMark,
        b'%' => UrlClass::Percent,
        _ => if byte.is_ascii_hexdigit() {
            UrlClass::Hexadecimal
        } else {
            UrlClass::Other
        },
    }
}
