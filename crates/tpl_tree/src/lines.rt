ghost use Rattle.std.specs.Prelude.{◌≡◌, ◌≤◌, length};
ghost use Rattle.tpl_tree.specs.Trees.{seam_before, text_line, IsFineTextNode};

use page_io::line_feeds;
use tpl_symbol::Seam;

// The line of a byte of a text that begins on a line and has seams.
pub(crate) fn line_in(text: &[u8], line: u32, seams: &[Seam], byte: u32) -> u32
    requires byte { byte ≤ length text.now }
    requires fine { IsFineTextNode text.now line seams.now }
    ensures { result ≡ text_line text.now line seams.now byte }
{
    let seam = last_seam(line, seams, byte);
    let between = &text[seam.at as usize..byte as usize];
    seam.line + line_feeds(between)
}

// The last of the seams that is not after a byte, and the beginning of the text where there is none.
fn last_seam(line: u32, seams: &[Seam], byte: u32) -> Seam
    ensures seam { result ≡ seam_before (record { at = 0; line = line }) seams.now byte }
    ensures at { result.at ≤ byte }
{
    let mut before = Seam { at: 0, line };
    for seam in seams {
        if seam.at <= byte {
            before = *seam;
        }
    }
    before
}
