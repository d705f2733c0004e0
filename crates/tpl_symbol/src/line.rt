ghost use Rattle.std.specs.Prelude.{◌≡◌, ◌≤◌, ◌-◌, length};
ghost use Rattle.tpl_token.specs.Answers.{max_template_text};
ghost use Rattle.tpl_symbol.specs.Lines as spec;

use page_io::line_feeds;

/// The line of a text on which the byte at an offset stands, counted from 1. The offset is at most the text's length, and the
/// text has at most `tpl_token::MAX_TEXT` bytes.
pub fn line_of(text: &str, offset: u32) -> u32
    requires limit { length text.now ≤ max_template_text }
    requires within { offset ≤ length text.now }
    ensures { result ≡ spec.line_of text.now offset }
{
    let counter = LineCounter { at: 0, line: 1 };
    counter.up_to(text, offset).line
}

/// Where a text ends.
#[derive(Clone, Copy, Debug, PartialEq, Eq)]
pub struct TextEnd {
    /// The length of the text in bytes.
    pub at: u32,
    /// The line of its last byte, 1 where it has none.
    pub before: u32,
    /// The line after its last byte.
    pub line: u32,
}

/// The end of a text of at most `tpl_token::MAX_TEXT` bytes, with its lines.
pub fn text_end(text: &str) -> TextEnd
    requires limit { length text.now ≤ max_template_text }
    ensures at { result.at ≡ length text.now }
    ensures before { result.before ≡ spec.line_of text.now (length text.now - 1) }
    ensures line { result.line ≡ spec.line_of text.now (length text.now) }
{
    let at = text.len() as u32;
    let start = LineCounter { at: 0, line: 1 };
    let before = start.up_to(text, at.saturating_sub(1));
    let end = before.up_to(text, at);
    TextEnd {
        at,
        before: before.line,
        line: end.line,
    }
}

/// An offset of a text, and its line.
#[derive(Clone, Copy)]
pub struct LineCounter {
    pub at: u32,
    pub line: u32,
}

impl LineCounter {
    /// Counts on to a later offset of the same text.
    pub fn up_to(self, text: &str, offset: u32) -> LineCounter
        requires limit { length text.now ≤ max_template_text }
        requires counted { self.line ≡ spec.line_of text.now self.at }
        requires later { self.at ≤ offset }
        requires within { offset ≤ length text.now }
        ensures at { result.at ≡ offset }
        ensures line { result.line ≡ spec.line_of text.now offset }
    {
        let (_, rest) = text.as_bytes().split_at(self.at as usize);
        let (between, _) = rest.split_at((offset - self.at) as usize);
        LineCounter {
            at: offset,
            line: self.line + line_feeds(between),
        }
    }
}
