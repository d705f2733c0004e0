ghost use Rattle.std.specs.Prelude.{◌≡◌};
ghost use Rattle.css_lexer.specs.Sanitizers as spec;

/// The hexadecimal digits by which a byte is written in a string, behind a backslash; none where it is written
/// otherwise. Does not allocate.
pub fn string_digits(byte: u8) -> &'static [u8]
    ensures { result.now ≡ spec.string_digits byte }
{
    match byte {
        0 => b"0",
        b'\t' => b"9",
        b'\n' => b"a",
        12 => b"c",
        b'\r' => b"d",
        b'"' => b"22",
        b'&' => b"26",
        b'\'' => b"27",
        b'(' => b"28",
        b')' => b"29",
        b'+' => b"2b",
        b'/' => b"2f",
        b':' => b"3a",
        b';' => b"3b",
        b'<' => b"3c",
        b'>' => b"3e",
        b'{' => b"7b",
        b'}' => b"7d",
        _ => b"",
    }
}

/// Whether no value that is written outside strings and URLs may have this byte. Does not allocate.
pub fn is_forbidden(byte: u8) -> bool
    ensures { result ≡ spec.is_forbidden byte }
{
    matches!(
        byte,
        0 | b'"'
            | b'\''
            | b'('
            | b')'
            | b'*'
            | b'/'
            | b';'
            | b'@'
            | b'['
            | b'\\'
            | b']'
            | b'{'
            | b'}'
            | b'<'
            | b'>'
            | b'`'
    )
}
