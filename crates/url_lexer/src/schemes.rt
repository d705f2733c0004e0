ghost use Rattle.std.specs.Prelude.{◌≡◌};
ghost use Rattle.url_lexer.specs.Schemes as spec;

/// Whether data may choose this scheme, which is in lower case: `http`, `https` or `mailto`.
pub fn is_safe_scheme(name: &[u8]) -> bool
    ensures { result ≡ spec.is_safe_scheme name.now }
{
    name == b"http".as_slice() || (name == b"https".as_slice() || name == b"mailto".as_slice())
}

/// Whether a URL of this scheme, which is in lower case, is code or a page of its own: `javascript`, `vbscript` or `data`. No data may
/// stand after it.
pub fn is_code_scheme(name: &[u8]) -> bool
    ensures { result ≡ spec.is_code_scheme name.now }
{
    name == b"javascript".as_slice()
        || (name == b"vbscript".as_slice() || name == b"data".as_slice())
}
