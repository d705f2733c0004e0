// Lines of a listing of tokens.
ghost use Rattle.std.specs.Prelude.{◌≡◌, ◌++◌, OnOk};
ghost use Rattle.page_lexer.specs.Printing as spec;

use page_datum::DatumRef;
use page_io::{Memory, Text};
use san_js::js_value;

/// Appends a line of a word, behind what stands before it.
pub fn push_word_line(out: &mut Text, front: &str, word: &str) -> Result<(), Memory>
    ensures { OnOk result (out.new ≡ out.old ++ spec.word_line front.now word.now) }
{
    let line = format!(in out.allocator(); "{front}{word}\n")?;
    out.push_str(line.as_str())
}

/// Appends a line of a word and a text, behind what stands before them.
pub fn push_quoted_line(out: &mut Text, front: &str, word: &str, text: &str) -> Result<(), Memory>
    ensures { OnOk result (out.new ≡ out.old ++ spec.quoted_line front.now word.now text.now) }
{
    let quoted = js_value(out.allocator(), DatumRef::Text(text))?;
    let quoted = quoted.as_str();
    let line = format!(in out.allocator(); "{front}{word} {quoted}\n")?;
    out.push_str(line.as_str())
}
