// A run of bytes of a text that stand as they are, all of ASCII: it is copied whole.
ghost use Rattle.std.specs.Prelude.{◌≡◌, ◌<◌, ◌≤◌, ◌+◌, ◌++◌, ℕ, IfOk, OnOk, IsTrue, drop, length, string_bytes};
ghost use Rattle.std.specs.List.{prefix_len};
ghost use Rattle.std.specs.Str.{IsAscii};
ghost use Rattle.esc_table.specs.Kept.{is_kept_byte};
ghost use Rattle.san_url.specs.Runs.{run_between};

use esc_table::run_len;
use page_io::Memory;

/// Appends the bytes of a text from a place on, up to the first that the table does not keep, and gives the place of that one.
pub(crate) fn push_kept(
    out: &mut String,
    table: &[bool; 256],
    text: &str,
    start: usize,
) -> Result<usize, Memory>
    requires inside { start ≤ length text.now }
    requires ascii { (b : ℕ) → b < 256 → IsTrue (is_kept_byte table.now b) → b < 128 }
    ensures end { IfOk result (λ end.
        end ≡ start + prefix_len (is_kept_byte table.now) (drop start text.now)) }
    ensures inside { IfOk result (λ end. end ≤ length text.now) }
    ensures written { IfOk result (λ end.
        string_bytes out.new ≡ string_bytes out.old ++ run_between text.now start end) }
{
    let end = start + run_len(table, &text.as_bytes()[start..]);
    push_run(out, text, start, end)?;
    Ok(end)
}

// Appends the bytes of a text between two places, which are of ASCII. Where there is none, the place may be inside a
// character.
fn push_run(out: &mut String, text: &str, start: usize, end: usize) -> Result<(), Memory>
    requires order { start ≤ end }
    requires inside { end ≤ length text.now }
    requires ascii { IsAscii (run_between text.now start end) }
    ensures { OnOk result (string_bytes out.new
        ≡ string_bytes out.old ++ run_between text.now start end) }
{
    if start < end {
        out.push_str(&text[start..end])?;
    }
    Ok(())
}
