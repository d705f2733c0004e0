ghost use Rattle.std.specs.Prelude.{◌≡◌, None, Some, MatchOption};
ghost use Rattle.std.specs.Str.{str_to_ascii_lowercase};
ghost use Rattle.san_url.specs.Back.{IsBackInPart};
ghost use Rattle.url_lexer.specs.Parts.{UrlStart};
ghost use Rattle.url_lexer.specs.Sanitizers as spec;
ghost use Rattle.url_lexer.specs.Schemes as schemes;

use url_lexer::{written_is_plain, written_reads_back};

/// What is written where a text may not stand at the beginning of a URL.
pub const FAILSAFE: &str = "#ZgotmplZ";

/// The text if it may stand where a URL begins, else `#ZgotmplZ`: that exactly where the text has a `:`, no `/` stands
/// before the first one, and what stands before it is not `http`, `https` or `mailto` in any case. What `url_norm`
/// writes of the answer is plain there, whatever the text: it ends no scheme but these. Allocates nothing. (RFC 3986,
/// section 3.1; URL Standard, section 4.4, "scheme state".)
pub fn url_filter(text: &str) -> &str
    ensures value { result.now ≡ spec.url_filter text.now }
    ensures in_start { IsBackInPart UrlStart text.now (spec.url_norm result.now) }
{
    written_is_plain();
    written_reads_back();
    if is_filtered(text) {
        return FAILSAFE;
    }
    text
}

// Whether the failsafe is to stand in place of a text.
fn is_filtered(text: &str) -> bool
    ensures { result ≡ spec.is_filtered (spec.before_colon text.now) }
{
    match before_colon(text.as_bytes()) {
        Some(front) => !is_safe(front),
        None => false,
    }
}

// What stands before the first `:`, where no `/` stands before that.
fn before_colon(text: &[u8]) -> Option<&[u8]>
    ensures { MatchOption result (spec.before_colon text.now ≡ None)
        (λ front. spec.before_colon text.now ≡ Some front.now) }
{
    for (at, byte) in text.iter().enumerate() {
        match *byte {
            b':' => return Some(&text[..at]),
            b'/' => return None,
            _ => {}
        }
    }
    None
}

// Whether data may choose this scheme, in any case of letters.
fn is_safe(name: &[u8]) -> bool
    ensures { result ≡ schemes.is_safe_scheme (str_to_ascii_lowercase name.now) }
{
    name.eq_ignore_ascii_case(b"http")
        || (name.eq_ignore_ascii_case(b"https") || name.eq_ignore_ascii_case(b"mailto"))
}
