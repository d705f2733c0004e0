ghost use Rattle.std.specs.Prelude.{◌≡◌};
ghost use Rattle.tpl_token.specs.Names as spec;

use page_io::Memory;
use std::alloc::AllocError;

/// Why a text has no tokens: the first thing from the left that is no token where it stands. Each offset is counted in bytes
/// from the beginning of the text.
#[derive(Clone, Copy, Debug, PartialEq, Eq, Drop)]
pub enum TokenRefused {
    /// The text ends in an action that has no comment, outside strings. The offset of the action's `{{`.
    UnclosedAction(u32),
    /// A character that begins no token. Its offset.
    BadCharacter(u32),
    /// The text ends in a string, or the line of a string in double quotes does, and no bad escape stands before. The offset
    /// of the opening quote.
    UnclosedString(u32),
    /// The text ends in a comment. The offset of its `{{`.
    UnclosedComment(u32),
    /// What begins as a number is not one: a float, a number that 64 bits with sign do not hold, a sign or `0x` without
    /// digits, a 0 before other digits, or a number that a letter, a digit, `_` or `.` follows at once. The offset of its
    /// first character.
    BadNumber(u32),
    /// After the `*/` of a comment stands neither `}}` nor ` -}}`. The offset after the `*/`.
    BadDelimiter(u32),
    /// A backslash in a string in double quotes begins no whole escape. The offset of the backslash.
    BadEscape(u32),
    /// Out of memory.
    Memory,
}

impl TokenRefused {
    /// The name of the cause, as it is printed; empty where memory ran out.
    pub fn name(self) -> &'static str
        ensures { result.now ≡ spec.token_refusal_name self }
    {
        match self {
            TokenRefused::UnclosedAction(_) => "UnclosedAction",
            TokenRefused::BadCharacter(_) => "BadCharacter",
            TokenRefused::UnclosedString(_) => "UnclosedString",
            TokenRefused::UnclosedComment(_) => "UnclosedComment",
            TokenRefused::BadNumber(_) => "BadNumber",
            TokenRefused::BadDelimiter(_) => "BadDelimiter",
            TokenRefused::BadEscape(_) => "BadEscape",
            TokenRefused::Memory => "",
        }
    }
}

impl From<Memory> for TokenRefused {
    ghost use Rattle.std.specs.Prelude.{◌≡◌};
    ghost use Rattle.tpl_token.specs.declared.refused.TokenRefused.TheVariants as refused;

    ghost from_gives = { λ _ e. e ≡ refused.Memory };

    fn from(_memory: Memory) -> TokenRefused {
        TokenRefused::Memory
    }
}

impl From<AllocError> for TokenRefused {
    ghost use Rattle.std.specs.Prelude.{◌≡◌};
    ghost use Rattle.tpl_token.specs.declared.refused.TokenRefused.TheVariants as refused;

    ghost from_gives = { λ _ e. e ≡ refused.Memory };

    fn from(_error: AllocError) -> TokenRefused {
        TokenRefused::Memory
    }
}
