ghost use Rattle.std.specs.Prelude.{◌≡◌, ◌+◌, ◌<◌, ◌^◌, ◌∷◌, [], MatchOption, length};
ghost use Rattle.std.specs.Char.{len_utf8};
ghost use Rattle.std.specs.Str.{chars};
ghost use Rattle.place_core.specs.page.Offsets.{with_offsets};

use crate::chars::Chars;

/// The characters of a text as they stand.
#[derive(Clone, Copy)]
pub struct StrChars<'a> {
    rest: &'a str,
    at: u32,
    ghost fits: { at + length rest.now < 2 ^ 32 },
}

impl<'a> StrChars<'a> {
    /// The characters of a text that stands at a place of its node, in bytes. Does not allocate.
    pub fn new(text: &'a str, at: u32) -> StrChars<'a>
        requires { at + length text.now < 2 ^ 32 }
        ensures { ⟦<StrChars<'a> as Chars>⟧.left result ≡ with_offsets at (chars text.now) }
    {
        StrChars { rest: text, at }
    }
}

impl<'a> Chars for StrChars<'a> {
    ghost left = { λ s. with_offsets s.at (chars s.rest.now) };

    fn next(&mut self) -> Option<(u32, u32)> {
        match split_first(self.rest) {
            None => None,
            Some((character, rest)) => {
                let place = self.at;
                *self = StrChars {
                    rest,
                    at: place + character.len_utf8() as u32,
                };
                Some((u32::from(character), place))
            }
        }
    }
}

// The first character of a text, and the text after it.
fn split_first(text: &str) -> Option<(char, &str)>
    ensures first { MatchOption result (chars text.now ≡ [])
        (λ first. chars text.now ≡ first.0 ∷ chars first.1.now) }
    ensures len { MatchOption result (length text.now ≡ 0)
        (λ first. length text.now ≡ len_utf8 first.0 + length first.1.now) }
{
    let mut characters = text.chars();
    match characters.next() {
        None => None,
        Some(character) => Some((character, characters.as_str())),
    }
}
