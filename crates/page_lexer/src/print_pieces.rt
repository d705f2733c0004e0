ghost use Rattle.std.specs.Prelude.{◌≡◌, ◌++◌, OnOk};
ghost use Rattle.page_lexer.specs.Printing as spec;

use crate::print_lines::push_quoted_line;
use page_io::{List, Memory, Text};
use page_piece::Piece;

/// Appends a line for each piece, behind what stands before each.
pub fn push_pieces(out: &mut Text, front: &str, pieces: &List<Piece>) -> Result<(), Memory>
    ensures { OnOk result (out.new ≡ out.old ++ spec.piece_lines front.now pieces.now) }
{
    for piece in pieces.as_slice() {
        push_quoted_line(out, front, piece.kind.word(), piece.text.as_str())?;
    }
    Ok(())
}
