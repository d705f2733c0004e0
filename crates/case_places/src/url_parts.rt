use crate::read_place::place_named;
use crate::steps::{put_chain, put_place};
use case_table::{CaseOutput, CaseRow, CaseStop};
use html_words::RefChars;
use place_core::{Body, Mode, Parts, Place, Step, StepErr, StrChars, ValuePlace};
use url_step::{after_hole, after_text};

/// Writes what a call of `url_step` gives in a value that is a URL, which is given by the text of its place: where characters lead
/// to, of a text as it stands (`text`) and of a value with references (`value`), where a node ends in the value (`open`) or the value
/// with the characters (`whole`); and the chain of a hole and the place behind it (`hole`).
pub fn put_url_parts(out: &mut CaseOutput, call: &str, row: &CaseRow) -> Result<(), CaseStop> {
    let (value, parts) = url_at(place_named(row.text(0)?)?)?;
    match call {
        "text open" => put_step(out, value, of_text(parts, row.text(1)?, Mode::Open)?),
        "text whole" => put_step(out, value, of_text(parts, row.text(1)?, Mode::Whole)?),
        "value open" => put_step(out, value, of_value(parts, row.text(1)?, Mode::Open)?),
        "value whole" => put_step(out, value, of_value(parts, row.text(1)?, Mode::Whole)?),
        "hole" => put_url_hole(out, value, parts),
        _ => return Err(CaseStop::Form),
    }
    Ok(())
}

// The value of a place, and the parts of the URL that it is.
fn url_at(place: Place) -> Result<(ValuePlace, Parts), CaseStop> {
    match place {
        Place::Value(value) => match value.body {
            Body::Url(parts) => Ok((value, parts)),
            _ => Err(CaseStop::Form),
        },
        _ => Err(CaseStop::Form),
    }
}

type Stepped = Result<Step<Parts>, StepErr<Parts>>;

fn of_text(parts: Parts, text: &str, mode: Mode) -> Result<Stepped, CaseStop> {
    if text.len() >= u32::MAX as usize || mode == Mode::Element {
        return Err(CaseStop::Form);
    }
    Ok(after_text(parts, StrChars::new(text, 0), mode))
}

fn of_value(parts: Parts, value: &str, mode: Mode) -> Result<Stepped, CaseStop> {
    if value.len() >= u32::MAX as usize || mode == Mode::Element {
        return Err(CaseStop::Form);
    }
    let cut = mode == Mode::Open;
    Ok(after_text(parts, RefChars::new(value, 0, cut), mode))
}

fn put_step(out: &mut CaseOutput, value: ValuePlace, stepped: Stepped) {
    match stepped {
        Ok(Step::Inside(parts)) => put_parts(out, value, parts),
        Ok(Step::Ends(at)) => out.put_made(format!(in out.alloc(); "ends {at}")),
        Err(refusal) => {
            let (code, at) = (refusal.code, refusal.at);
            out.put_made(format!(in out.alloc(); "{code:?} {at} "));
            put_parts(out, value, refusal.before);
        }
    }
}

fn put_url_hole(out: &mut CaseOutput, value: ValuePlace, parts: Parts) {
    match after_hole(parts) {
        Ok((after, chain)) => {
            put_chain(out, chain);
            out.put(", ");
            put_parts(out, value, after);
        }
        Err(code) => out.put_made(format!(in out.alloc(); "{code:?}")),
    }
}

fn put_parts(out: &mut CaseOutput, value: ValuePlace, parts: Parts) {
    put_place(
        out,
        Place::Value(ValuePlace {
            body: Body::Url(parts),
            ..value
        }),
    );
}
