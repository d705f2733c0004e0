ghost use Rattle.std.specs.Prelude.{◌≡◌, OnOk, length, nat_lt};
ghost use Rattle.tpl_format.specs.Answers.{max_format_text};
ghost use Rattle.tpl_format.specs.Making.{added};

use page_io::{Memory, Text};

// The most bytes that a text may have.
const MAX_TEXT: usize = 16_777_216;

/// Whether a text has more bytes than one may have.
pub(crate) fn is_long(text: &Text) -> bool
    ensures { result ≡ nat_lt max_format_text (length text.now) }
{
    text.as_str().len() > MAX_TEXT
}

/// Appends a text, unless there are too many bytes already. Fails only if allocation fails.
pub(crate) fn add(out: &mut Text, more: &str) -> Result<(), Memory>
    ensures { OnOk result (out.new ≡ added out.old more.now) }
{
    if is_long(out) {
        return Ok(());
    }
    out.push_str(more)
}
