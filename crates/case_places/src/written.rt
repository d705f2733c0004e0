use crate::path::{MOST, PathEnd, path_from, step};
use crate::read_place::place_named;
use crate::steps::put_path_end;
use case_table::{CaseOutput, CaseRow, CaseStop, text_of};
use html_step::after_hole;
use page_datum::Datum;
use place_core::{Chain, Place, San, TEXT};
use text_norm::write_text;

/// Writes what a call of `text_norm` gives: what a page gets for the texts of pieces from the beginning of a page
/// (`written`), and for a text from a place by its text (`written at`). Pieces that are refused are written as those of
/// `path`.
pub fn put_written(out: &mut CaseOutput, call: &str, row: &CaseRow) -> Result<(), CaseStop> {
    match call {
        "written" => put_path(out, TEXT, row.list(0)?),
        "written at" => put_text_at(out, place_named(row.text(0)?)?, row.text(1)?),
        _ => Err(CaseStop::Form),
    }
}

fn put_path(out: &mut CaseOutput, start: Place, pieces: &[Datum]) -> Result<(), CaseStop> {
    match path_from(start, pieces)? {
        PathEnd::At(_) => put_each(out, start, pieces),
        refused => {
            put_path_end(out, refused);
            Ok(())
        }
    }
}

fn put_text_at(out: &mut CaseOutput, place: Place, text: &str) -> Result<(), CaseStop> {
    match step(place, text, 0)? {
        PathEnd::At(_) => put_text(out, place, text),
        refused => {
            put_path_end(out, refused);
            Ok(())
        }
    }
}

// Pieces that are not refused.
fn put_each(out: &mut CaseOutput, start: Place, pieces: &[Datum]) -> Result<(), CaseStop> {
    let mut place = start;
    for index in 0..pieces.len() {
        let piece = text_of(&pieces[index])?;
        put_piece(out, place, piece)?;
        match step(place, piece, index)? {
            PathEnd::At(after) => place = after,
            _ => return Err(CaseStop::Form),
        }
    }
    Ok(())
}

fn put_piece(out: &mut CaseOutput, place: Place, piece: &str) -> Result<(), CaseStop> {
    if piece == "{{}}" {
        return put_hole(out, place);
    }
    put_text(out, place, piece)
}

// A hole has a part in the page, unless what stands for it is left out.
fn put_hole(out: &mut CaseOutput, place: Place) -> Result<(), CaseStop> {
    match after_hole(place) {
        Ok((_, chain)) => {
            if !is_left_out(chain) {
                out.put("{{}}");
            }
            Ok(())
        }
        Err(_) => Err(CaseStop::Form),
    }
}

fn is_left_out(chain: Chain) -> bool {
    matches!(chain.sans[0], San::Drop)
}

fn put_text(out: &mut CaseOutput, place: Place, text: &str) -> Result<(), CaseStop> {
    if text.len() > MOST {
        return Err(CaseStop::Form);
    }
    out.put_text(write_text(out.alloc(), place, text));
    Ok(())
}
