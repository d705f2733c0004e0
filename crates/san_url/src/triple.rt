ghost use Rattle.std.specs.Prelude.{◌≡◌, ◌<◌, ◌++◌, OnOk, string_bytes, [], ◌∷◌};
ghost use Rattle.url_lexer.specs.Sanitizers.{hexadecimal_digit, triple};

use page_io::Memory;

/// Appends the percent triple of a byte: `%` and two digits in lower case. (RFC 3986, section 2.1.)
pub(crate) fn push_triple(out: &mut String, byte: u8) -> Result<(), Memory>
    ensures { OnOk result (string_bytes out.new ≡ string_bytes out.old ++ triple byte) }
{
    out.push('%')?;
    push_digit(out, byte / 16)?;
    push_digit(out, byte % 16)
}

fn push_digit(out: &mut String, value: u8) -> Result<(), Memory>
    requires { value < 16 }
    ensures { OnOk result (string_bytes out.new
        ≡ string_bytes out.old ++ (hexadecimal_digit value ∷ [])) }
{
    if value < 10 {
        return push_ascii(out, b'0' + value);
    }
    push_ascii(out, b'a' + (value - 10))
}

// Appends a byte of ASCII.
fn push_ascii(out: &mut String, byte: u8) -> Result<(), Memory>
    requires { byte < 128 }
    ensures { OnOk result (string_bytes out.new ≡ string_bytes out.old ++ (byte ∷ [])) }
{
    out.push(byte as char)?;
    Ok(())
}
