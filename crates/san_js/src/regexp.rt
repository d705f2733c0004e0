ghost use Rattle.std.specs.Prelude.{◌≡◌, ◌++◌, IfOk, OnOk, string_bytes};
ghost use Rattle.esc_table.specs.Replaced.{replaced};
ghost use Rattle.js_lexer.specs.Sanitizers as spec;
ghost use Rattle.js_lexer.specs.ScriptBack.{IsBackInScriptRegexp};
ghost use Rattle.san_js.specs.ScriptRows.{escape_rows_of};

use esc_table::{push_replaced, table};
use js_lexer::texts_read_back;
use page_io::{Memory, Text};
use std::alloc::Global;

/// What is written for a text in a regular expression of a script: besides what `js_string` escapes, each of
/// `$()*-.?[]^{|}` has a backslash before it, and every other character stays. For the empty text it is `(?:)`, since
/// `//` would begin a comment, and for no other text is it that. In a regular expression outside `[ ]`, in no template
/// literal and where no escape is open before it, it is plain, whatever the text, right behind the slash too; and with
/// its escapes undone it is the text. Fails only if allocation fails. (ECMA-262, sections 12.9.5 and 22.2.1.)
pub fn js_regexp(alloc: Global, text: &str) -> Result<Text, Memory>
    ensures written { IfOk result (λ bytes. bytes ≡ spec.js_regexp text.now) }
    ensures in_regexp { IfOk result (λ bytes. IsBackInScriptRegexp text.now bytes) }
{
    texts_read_back();
    let mut out = String::new(alloc);
    push_js_regexp(&mut out, text)?;
    Ok(Text::from(out))
}

/// Appends what `js_regexp` gives. Fails only if allocation fails, and then a part of it may be there.
pub fn push_js_regexp(out: &mut String, text: &str) -> Result<(), Memory>
    ensures { OnOk result (string_bytes out.new
        ≡ string_bytes out.old ++ spec.js_regexp text.now) }
{
    if text.is_empty() {
        out.push_str("(?:)")?;
        return Ok(());
    }
    push_escaped(out, text)
}

fn push_escaped(out: &mut String, text: &str) -> Result<(), Memory>
    ensures { OnOk result (string_bytes out.new
        ≡ string_bytes out.old ++ replaced (escape_rows_of spec.regexp_rows) text.now) }
{
    let table = table! {
        '\0' => "\\u0000",
        '\t' => "\\t",
        '\n' => "\\n",
        '\u{B}' => "\\u000b",
        '\u{C}' => "\\f",
        '\r' => "\\r",
        '"' => "\\u0022",
        '`' => "\\u0060",
        '&' => "\\u0026",
        '\'' => "\\u0027",
        '+' => "\\u002b",
        '/' => "\\/",
        '<' => "\\u003c",
        '>' => "\\u003e",
        '\\' => "\\\\",
        '\u{2028}' => "\\u2028",
        '\u{2029}' => "\\u2029",
        '$' => "\\$",
        '(' => "\\(",
        ')' => "\\)",
        '*' => "\\*",
        '-' => "\\-",
        '.' => "\\.",
        '?' => "\\?",
        '[' => "\\[",
        ']' => "\\]",
        '^' => "\\^",
        '{' => "\\{",
        '|' => "\\|",
        '}' => "\\}",
    };
    push_replaced(out, &table, text)
}
