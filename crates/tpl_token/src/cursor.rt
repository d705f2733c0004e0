ghost use Rattle.std.specs.Prelude.{◌≡◌, ◌+◌, ◌≤◌};
ghost use Rattle.tpl_token.specs.Answers.{max_template_text};
ghost use Rattle.tpl_token.specs.Scanning as spec;

use crate::token::{Token, TokenKind};

/// How far a text is read.
#[derive(Clone, Copy, Debug)]
pub struct Cursor {
    /// What stands there.
    pub state: CursorState,
    /// The offset, in bytes from the beginning of the text.
    pub at: usize,
}

/// What stands at an offset of a text, by what stands before it.
#[derive(Clone, Copy, Debug)]
pub enum CursorState {
    /// Text, up to the next action or to the end.
    Text {
        /// Whether it stands after `-}}`, which trims its beginning.
        trims: bool,
    },
    /// The inside of an action, at once after its beginning.
    Opened {
        /// Whether that is `{{-`, and not `{{`.
        trims: bool,
        /// The offset of the `{{`.
        offset: u32,
    },
    /// The inside of an action, after one of its tokens.
    Action {
        /// The offset of its `{{`.
        offset: u32,
    },
    /// The end of an action, after its comment.
    Commented,
}

impl Cursor {
    /// A token of this kind and length at an offset, and how far the text is read with it.
    pub fn step(kind: TokenKind, at: usize, len: usize, state: CursorState) -> (Token, Cursor)
        requires limit { at + len ≤ max_template_text + 1 }
        ensures { result ≡ spec.scan_step kind at len state }
    {
        let end = at + len;
        let token = Token {
            kind,
            start: at as u32,
            end: end as u32,
        };
        (token, Cursor { state, at: end })
    }
}
