ghost use Rattle.std.specs.Prelude.{◌≡◌};
ghost use Rattle.url_lexer.specs.Kept as spec;

/// Whether a byte is unreserved: it means itself wherever it stands in a URL. (RFC 3986, section 2.3.)
pub fn is_unreserved(byte: u8) -> bool
    ensures { result ≡ spec.is_unreserved byte }
{
    byte.is_ascii_alphanumeric() || matches!(byte, b'-' | b'.' | b'_' | b'~')
}

/// Whether a byte stands as it is in a URL: it is unreserved, or delimits parts. (RFC 3986, section 2.2, without `(`, `)` and `'`.)
pub fn is_kept(byte: u8) -> bool
    ensures { result ≡ spec.is_kept_in_url byte }
{
    is_unreserved(byte)
        || matches!(
            byte,
            b'!' | b'#'
                | b'$'
                | b'&'
                | b'*'
                | b'+'
                | b','
                | b'/'
                | b':'
                | b';'
                | b'='
                | b'?'
                | b'@'
                | b'['
                | b']'
        )
}
