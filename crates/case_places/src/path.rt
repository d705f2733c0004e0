use case_table::{CaseStop, text_of};
use html_step::{after_hole, after_text};
use page_datum::Datum;
use place_core::{Code, Place};

/// The most bytes of a text.
pub const MOST: usize = 16_777_216;

/// Where pieces lead to from a place.
#[derive(Clone, Copy)]
pub enum PathEnd {
    At(Place),
    /// A piece is refused: its number, counted from 1, the byte of a text, and the place before that.
    Refused {
        code: Code,
        piece: usize,
        byte: Option<u32>,
        before: Place,
    },
}

/// Where pieces lead to from a place: texts, and `{{}}` for a hole.
pub fn path_from(start: Place, pieces: &[Datum]) -> Result<PathEnd, CaseStop> {
    let mut place = start;
    for index in 0..pieces.len() {
        match step(place, text_of(&pieces[index])?, index)? {
            PathEnd::At(after) => place = after,
            refused => return Ok(refused),
        }
    }
    Ok(PathEnd::At(place))
}

/// A step over one piece.
pub fn step(place: Place, piece: &str, index: usize) -> Result<PathEnd, CaseStop> {
    if piece == "{{}}" {
        return Ok(over_hole(place, index));
    }
    over_text(place, piece, index)
}

fn over_text(place: Place, text: &str, index: usize) -> Result<PathEnd, CaseStop> {
    if text.len() > MOST {
        return Err(CaseStop::Form);
    }
    match after_text(place, text) {
        Ok(after) => Ok(PathEnd::At(after)),
        Err(refused) => Ok(PathEnd::Refused {
            code: refused.code,
            piece: index,
            byte: Some(refused.at),
            before: refused.before,
        }),
    }
}

fn over_hole(place: Place, index: usize) -> PathEnd {
    match after_hole(place) {
        Ok((after, _)) => PathEnd::At(after),
        Err(code) => PathEnd::Refused {
            code,
            piece: index,
            byte: None,
            before: place,
        },
    }
}
