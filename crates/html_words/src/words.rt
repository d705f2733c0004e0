// Names against words of HTML, in any case of the letters.
ghost use Rattle.std.specs.Prelude.{◌≡◌, nat_eq, map};
ghost use Rattle.std.specs.List.{starts_with};
ghost use Rattle.std.specs.Str.{str_eq_ignore_ascii_case, str_to_ascii_lowercase as lower};
ghost use Rattle.place_core.specs.page.Words as spec;

/// Whether two names are the same, in any case.
pub fn same(one: &[u8], other: &[u8]) -> bool
    ensures { result ≡ str_eq_ignore_ascii_case one.now other.now }
{
    one.eq_ignore_ascii_case(other)
}

/// Whether a name is one of these words.
pub fn is_among(name: &[u8], words: &[&[u8]]) -> bool
    ensures { result ≡ spec.is_among (map (λ word. lower word.now) words.now) (lower name.now) }
{
    for word in words {
        if same(name, word) {
            return true;
        }
    }
    false
}

/// Whether a name begins with a word.
pub fn begins(name: &[u8], word: &[u8]) -> bool
    ensures { result ≡ starts_with nat_eq (lower name.now) (lower word.now) }
{
    if name.len() < word.len() {
        return false;
    }
    let (prefix, _) = name.split_at(word.len());
    same(word, prefix)
}

/// Whether a word stands somewhere in a name.
pub fn has_part(name: &[u8], part: &[u8]) -> bool
    ensures { result ≡ spec.has_part (lower part.now) (lower name.now) }
{
    let mut rest = name;
    while let Some((_, after)) = rest.split_first() {
        if begins(rest, part) {
            return true;
        }
        rest = after;
    }
    begins(rest, part)
}
