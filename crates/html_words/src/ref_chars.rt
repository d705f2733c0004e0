ghost use Rattle.std.specs.Prelude.{◌≡◌, ◌+◌, ◌<◌, ◌^◌, length, true};
ghost use Rattle.place_core.specs.page.Characters.{characters_at};

use crate::character::next_in_value;
use place_core::Chars;

/// The characters of the value of an attribute with references undone.
#[derive(Clone, Copy)]
pub struct RefChars<'a> {
    rest: &'a [u8],
    at: u32,
    cut: bool,
    ghost fits: { at + length rest.now < 2 ^ 32 },
}

impl<'a> RefChars<'a> {
    /// The characters of a value that stands at a place of its node, in bytes. Where the node ends in the value, it is cut: what is
    /// a reference only because it ends there is read as it is. Does not allocate.
    pub fn new(value: &'a str, at: u32, cut: bool) -> RefChars<'a>
        requires { at + length value.now < 2 ^ 32 }
        ensures { ⟦<RefChars<'a> as Chars>⟧.left result ≡ characters_at true cut at value.now }
    {
        RefChars {
            rest: value.as_bytes(),
            at,
            cut,
        }
    }
}

impl<'a> Chars for RefChars<'a> {
    ghost left = { λ s. characters_at true s.cut s.at s.rest.now };

    fn next(&mut self) -> Option<(u32, u32)> {
        match next_in_value(self.rest, self.cut) {
            None => None,
            Some((code, len)) => {
                let place = self.at;
                let (_, rest) = self.rest.split_at(len);
                *self = RefChars {
                    rest,
                    at: place + len as u32,
                    cut: self.cut,
                };
                Some((code, place))
            }
        }
    }
}
