ghost use Rattle.std.specs.Prelude.{◌≡◌, ◌++◌, OnOk, string_bytes};
ghost use Rattle.esc_table.specs.Replaced.{replaced};
ghost use Rattle.js_lexer.specs.Sanitizers.{json_text};
ghost use Rattle.san_js.specs.ScriptRows.{text_rows_once};

use esc_table::{push_replaced, table};
use page_io::Memory;

/// Appends a text as a string of JSON. (RFC 8259, section 7.)
pub(crate) fn push_quoted(out: &mut String, text: &str) -> Result<(), Memory>
    ensures { OnOk result (string_bytes out.new ≡ string_bytes out.old ++ json_text text.now) }
{
    out.push_str("\"")?;
    push_escaped(out, text)?;
    out.push_str("\"")?;
    Ok(())
}

fn push_escaped(out: &mut String, text: &str) -> Result<(), Memory>
    ensures { OnOk result (string_bytes out.new
        ≡ string_bytes out.old ++ replaced text_rows_once text.now) }
{
    let table = table! {
        '"' => "\\\"",
        '\\' => "\\\\",
        '\n' => "\\n",
        '\r' => "\\r",
        '\t' => "\\t",
        '<' => "\\u003c",
        '>' => "\\u003e",
        '&' => "\\u0026",
        '\u{2028}' => "\\u2028",
        '\u{2029}' => "\\u2029",
        '\0' => "\\u0000",
        '\u{1}' => "\\u0001",
        '\u{2}' => "\\u0002",
        '\u{3}' => "\\u0003",
        '\u{4}' => "\\u0004",
        '\u{5}' => "\\u0005",
        '\u{6}' => "\\u0006",
        '\u{7}' => "\\u0007",
        '\u{8}' => "\\u0008",
        '\u{B}' => "\\u000b",
        '\u{C}' => "\\u000c",
        '\u{E}' => "\\u000e",
        '\u{F}' => "\\u000f",
        '\u{10}' => "\\u0010",
        '\u{11}' => "\\u0011",
        '\u{12}' => "\\u0012",
        '\u{13}' => "\\u0013",
        '\u{14}' => "\\u0014",
        '\u{15}' => "\\u0015",
        '\u{16}' => "\\u0016",
        '\u{17}' => "\\u0017",
        '\u{18}' => "\\u0018",
        '\u{19}' => "\\u0019",
        '\u{1A}' => "\\u001a",
        '\u{1B}' => "\\u001b",
        '\u{1C}' => "\\u001c",
        '\u{1D}' => "\\u001d",
        '\u{1E}' => "\\u001e",
        '\u{1F}' => "\\u001f",
    };
    push_replaced(out, &table, text)
}
