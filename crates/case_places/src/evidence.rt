use crate::path::MOST;
use crate::read_member::member_named;
use crate::read_place::place_named;
use crate::steps::escaper_named;
use case_table::{CaseOutput, CaseRow, CaseStop, text_of};
use html_step::{
    Evidence, after_hole, after_text, escape_evidence, hole_evidence, hole_from, may_escape,
    text_evidence, text_from,
};
use page_datum::Datum;
use place_core::{Member, Place, has, is_valid, join, join_evidence};
use std::alloc::{AllocError, Global};

/// Writes what a call gives that names members of a place, where several answers may be right: `shown` where the answer is
/// one of those that the row lists, and else the answer; `none` where the call has nothing to say. The members that show
/// that a text, a hole or an escaper is refused (`text_evidence`, `hole_evidence`, `escape_evidence`), or that two places do not
/// join (`join_evidence`), and the one that a member after a text or a hole comes from (`text_from`, `hole_from`).
pub fn put_evidence(out: &mut CaseOutput, call: &str, row: &CaseRow) -> Result<(), CaseStop> {
    let place = place_named(row.text(0)?)?;
    match call {
        "text_evidence" => put_text_evidence(out, place, row),
        "hole_evidence" => put_hole_evidence(out, place, row),
        "escape_evidence" => put_escape_evidence(out, place, row),
        "join_evidence" => put_join_evidence(out, place, row),
        "text_from" => put_text_from(out, place, row),
        "hole_from" => put_hole_from(out, place, row),
        _ => Err(CaseStop::Form),
    }
}

fn put_text_evidence(out: &mut CaseOutput, place: Place, row: &CaseRow) -> Result<(), CaseStop> {
    let text = row.text(1)?;
    if !is_valid(place) || text.len() > MOST {
        return Err(CaseStop::Form);
    }
    match after_text(place, text) {
        Err(_) => {
            let answer = evidence_named(out.alloc(), text_evidence(place, text));
            put_answer(out, answer, row.list(2)?)
        }
        Ok(_) => put_none(out),
    }
}

fn put_hole_evidence(out: &mut CaseOutput, place: Place, row: &CaseRow) -> Result<(), CaseStop> {
    if !is_valid(place) {
        return Err(CaseStop::Form);
    }
    match after_hole(place) {
        Err(_) => {
            let answer = evidence_named(out.alloc(), hole_evidence(place));
            put_answer(out, answer, row.list(1)?)
        }
        Ok(_) => put_none(out),
    }
}

fn put_escape_evidence(out: &mut CaseOutput, place: Place, row: &CaseRow) -> Result<(), CaseStop> {
    let escaper = escaper_named(row.text(1)?)?;
    if !is_valid(place) {
        return Err(CaseStop::Form);
    }
    if may_escape(place, escaper) {
        return put_none(out);
    }
    let answer = one_named(out.alloc(), escape_evidence(place, escaper));
    put_answer(out, answer, row.list(2)?)
}

fn put_join_evidence(out: &mut CaseOutput, one: Place, row: &CaseRow) -> Result<(), CaseStop> {
    let other = place_named(row.text(1)?)?;
    if !is_valid(one) || !is_valid(other) {
        return Err(CaseStop::Form);
    }
    if join(one, other).is_some() {
        return put_none(out);
    }
    let (x, y) = join_evidence(one, other);
    let answer = two_named(out.alloc(), x, y);
    put_answer(out, answer, row.list(2)?)
}

fn put_text_from(out: &mut CaseOutput, place: Place, row: &CaseRow) -> Result<(), CaseStop> {
    let (text, member) = (row.text(1)?, member_named(row.text(2)?)?);
    if !is_valid(place) || text.len() > MOST {
        return Err(CaseStop::Form);
    }
    match after_text(place, text) {
        Ok(after) if has(after, member) => {
            let answer = one_named(out.alloc(), text_from(place, text, member));
            put_answer(out, answer, row.list(3)?)
        }
        _ => put_none(out),
    }
}

fn put_hole_from(out: &mut CaseOutput, place: Place, row: &CaseRow) -> Result<(), CaseStop> {
    let member = member_named(row.text(1)?)?;
    if !is_valid(place) {
        return Err(CaseStop::Form);
    }
    match after_hole(place) {
        Ok((after, _)) if has(after, member) => {
            let answer = one_named(out.alloc(), hole_from(place, member));
            put_answer(out, answer, row.list(2)?)
        }
        _ => put_none(out),
    }
}

fn evidence_named(alloc: Global, evidence: Evidence) -> Result<String, AllocError> {
    match evidence {
        Evidence::One(member) => one_named(alloc, member),
        Evidence::Two(x, y) => two_named(alloc, x, y),
        Evidence::Apart => format!(in alloc; "Apart"),
    }
}

fn one_named(alloc: Global, member: Member) -> Result<String, AllocError> {
    format!(in alloc; "{member:?}")
}

fn two_named(alloc: Global, x: Member, y: Member) -> Result<String, AllocError> {
    format!(in alloc; "{x:?}, {y:?}")
}

fn put_none(out: &mut CaseOutput) -> Result<(), CaseStop> {
    out.put("none");
    Ok(())
}

// Writes whether an answer is among the right ones, and else the answer.
fn put_answer(
    out: &mut CaseOutput,
    answer: Result<String, AllocError>,
    right: &[Datum],
) -> Result<(), CaseStop> {
    let answer = answer?;
    for other in right {
        if text_of(other)? == answer.as_str() {
            out.put("shown");
            return Ok(());
        }
    }
    out.put(answer.as_str());
    Ok(())
}
