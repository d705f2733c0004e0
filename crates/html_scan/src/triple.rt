ghost use Rattle.std.specs.Prelude.{◌≡◌};
ghost use Rattle.url_lexer.specs.Classes as classes;
ghost use Rattle.url_lexer.specs.Triples.{next_triple};
ghost use Rattle.html_scan.specs.ScanViews.{triple_at};

use url_lexer::{UrlClass, url_class_of};

/// How much of a percent triple has been read in a URL: of `%` and two hexadecimal digits. (RFC 3986, section 2.1.)
#[derive(Clone, Copy)]
pub enum Triple {
    /// None has begun.
    None,
    /// `%`.
    AfterPercent,
    /// `%` and a digit.
    AfterDigit,
}

/// How much has been read after a byte of the URL.
pub fn triple_after(triple: Triple, byte: u8) -> Triple
    ensures { triple_at result ≡ next_triple (triple_at triple) (classes.url_class_of byte) }
{
    match (triple, url_class_of(byte)) {
        (_, UrlClass::Percent) => Triple::AfterPercent,
        (Triple::AfterPercent, UrlClass::Hexadecimal) => Triple::AfterDigit,
        _ => Triple::None,
    }
}
