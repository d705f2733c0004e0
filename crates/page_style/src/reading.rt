ghost use Rattle.std.specs.Prelude.{◌≡◌, ◌<◌, IfOk, length};
ghost use Rattle.std.specs.Str.{IsCharBoundary};
ghost use Rattle.page_style.specs.Reading.{style_pieces_of};
ghost use Rattle.page_style.specs.Views.{IsNext, Reads, read_style_at};

use crate::change::{releases, style_change_of};
use crate::next::next;
use crate::part::{Part, part_at};
use crate::pieces::Pieces;
use crate::state::State;
use page_io::{List, Memory};
use page_piece::Piece;
use std::alloc::Global;

/// The pieces of a style in order (CSS Syntax Level 3, section 4.3). Takes time in proportion to the length of the text. Fails only when
/// memory runs out.
///
/// A word is a longest run of letters, digits, `_`, `-`, characters past ASCII, and backslashes each with the character that it takes. `/*`
/// begins a comment, up to its `*/`. A string ends at its quote; a line feed, form feed or carriage return that no backslash takes makes it
/// a bad one, and is not part of it. The word `url` in any case and a `(` begin a URL, up to its `)`; what may not stand in it, or after
/// it, makes it a bad string up to the next `)`. Each of `( ) [ ] { } ; @` is punctuation, and a longest run of all else is plain, white
/// space among it. What the end of the text cuts has the kind of what is open, and a backslash before the end is plain.
pub fn style_pieces(alloc: Global, text: &str) -> Result<List<Piece>, Memory>
    ensures { IfOk result (λ pieces. pieces ≡ style_pieces_of text.now) }
{
    let mut state = State::Between(false);
    let mut pieces = Pieces::new(alloc);
    let mut at = 0;
    while at < text.len() {
        let part = part_at(text, at);
        state = read_part(&mut pieces, alloc, text, part, state)?;
        at = part.to;
    }
    pieces.all(alloc, text)
}

// The part of the text is read.
fn read_part(
    pieces: &mut Pieces,
    alloc: Global,
    text: &str,
    part: Part,
    state: State,
) -> Result<State, Memory>
    requires next { IsNext text.now part pieces.old }
    requires some { part.from < length text.now }
    requires cut { IsCharBoundary text.now part.from }
    ensures { IfOk result (λ next. Reads text.now part next pieces.new
        (read_style_at text.now part.from state pieces.old)) }
{
    let byte = text.as_bytes()[part.from];
    pieces.release_where(alloc, text, part.from, releases(state, byte))?;
    pieces.change(alloc, text, part, style_change_of(state, byte))?;
    Ok(next(state, byte))
}
