use crate::evidence::put_evidence;
use crate::path::{PathEnd, path_from};
use crate::read_member::member_named;
use crate::read_place::place_named;
use case_table::{CaseOutput, CaseRow, CaseStop, text_of};
use html_step::{Escaper, after_hole, may_escape, print_place};
use page_datum::Datum;
use page_io::Text;
use place_core::{Chain, Place, TEXT, has, join};

/// Writes what a call gives, of `html_step`. Places are given by pieces that lead to them from text: where pieces lead to
/// (`path`), the chain of a hole after them (`after_hole`), where pieces lead to from the join of two paths (`joined`),
/// where texts lead to as one and one by one (`cut`), and whether an escaper may be named after pieces (`may_escape`). The
/// other calls are given the texts of places.
pub fn put_places(out: &mut CaseOutput, call: &str, row: &CaseRow) -> Result<(), CaseStop> {
    match call {
        "path" => put_path_end(out, path_from(TEXT, row.list(0)?)?),
        "after_hole" => put_hole(out, place_after(row.list(0)?)?),
        "joined" => put_joined(out, row)?,
        "cut" => put_cut(out, row.list(0)?)?,
        "may_escape" => put_escaper(out, place_after(row.list(0)?)?, row.text(1)?)?,
        _ => put_named(out, call, row)?,
    }
    Ok(())
}

// Of places by their texts: how one is printed (`printed`), the join of two (`join`), where pieces lead to from one
// (`after`), whether it has a member (`has`), the chain of a hole there (`hole`), and whether an escaper may be named there
// (`named escaper`).
fn put_named(out: &mut CaseOutput, call: &str, row: &CaseRow) -> Result<(), CaseStop> {
    let place = place_named(row.text(0)?)?;
    match call {
        "printed" => put_place(out, place),
        "join" => put_join(out, place, place_named(row.text(1)?)?),
        "after" => put_path_end(out, path_from(place, row.list(1)?)?),
        "has" => put_member(out, place, row.text(1)?)?,
        "hole" => put_hole(out, place),
        "named escaper" => put_escaper(out, place, row.text(1)?)?,
        _ => put_evidence(out, call, row)?,
    }
    Ok(())
}

// The place to which pieces lead that are not refused.
fn place_after(pieces: &[Datum]) -> Result<Place, CaseStop> {
    match path_from(TEXT, pieces)? {
        PathEnd::At(place) => Ok(place),
        PathEnd::Refused { .. } => Err(CaseStop::Form),
    }
}

/// Writes a place.
pub fn put_place(out: &mut CaseOutput, place: Place) {
    out.put_text(print_place(out.alloc(), place));
}

/// Writes a place; or the code, the number of the piece with its byte, and the place before that.
pub fn put_path_end(out: &mut CaseOutput, end: PathEnd) {
    match end {
        PathEnd::At(place) => put_place(out, place),
        PathEnd::Refused {
            code,
            piece,
            byte,
            before,
        } => {
            let number = piece.wrapping_add(1);
            out.put_made(format!(in out.alloc(); "{code:?} {number}"));
            if let Some(byte) = byte {
                out.put_made(format!(in out.alloc(); ":{byte}"));
            }
            out.put(" ");
            put_place(out, before);
        }
    }
}

fn put_hole(out: &mut CaseOutput, place: Place) {
    match after_hole(place) {
        Ok((after, chain)) => {
            put_chain(out, chain);
            out.put(", ");
            put_place(out, after);
        }
        Err(code) => out.put_made(format!(in out.alloc(); "{code:?}")),
    }
}

/// Writes the sanitizers of a chain.
pub fn put_chain(out: &mut CaseOutput, chain: Chain) {
    for index in 0..3usize {
        if index < usize::from(chain.count) {
            out.put(if index == 0 { "" } else { " | " });
            out.put(chain.sans[index].name());
        }
    }
}

// Two paths, and pieces after their join.
fn put_joined(out: &mut CaseOutput, row: &CaseRow) -> Result<(), CaseStop> {
    let (one, other) = (place_after(row.list(0)?)?, place_after(row.list(1)?)?);
    match join(one, other) {
        Some(place) => put_path_end(out, path_from(place, row.list(2)?)?),
        None => out.put("none"),
    }
    Ok(())
}

// Texts as one text, and one by one.
fn put_cut(out: &mut CaseOutput, texts: &[Datum]) -> Result<(), CaseStop> {
    let mut whole = Text::new(out.alloc());
    for text in texts {
        if whole.push_str(text_of(text)?).is_err() {
            out.lose();
        }
    }
    put_path_end(out, crate::path::step(TEXT, whole.as_str(), 0)?);
    out.put("; ");
    put_path_end(out, path_from(TEXT, texts)?);
    Ok(())
}

fn put_join(out: &mut CaseOutput, one: Place, other: Place) {
    match join(one, other) {
        Some(place) => put_place(out, place),
        None => out.put("none"),
    }
}

fn put_member(out: &mut CaseOutput, place: Place, name: &str) -> Result<(), CaseStop> {
    let is_there = has(place, member_named(name)?);
    out.put(if is_there { "has" } else { "not" });
    Ok(())
}

fn put_escaper(out: &mut CaseOutput, place: Place, name: &str) -> Result<(), CaseStop> {
    let is_allowed = may_escape(place, escaper_named(name)?);
    out.put(if is_allowed { "may" } else { "not" });
    Ok(())
}

/// The escaper with the name that templates have for it.
pub fn escaper_named(name: &str) -> Result<Escaper, CaseStop> {
    match name {
        "html" => Ok(Escaper::Html),
        "urlquery" => Ok(Escaper::Urlquery),
        _ => Err(CaseStop::Form),
    }
}
