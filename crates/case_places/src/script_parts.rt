use crate::read_place::place_named;
use crate::steps::{put_chain, put_place};
use case_table::{CaseOutput, CaseRow, CaseStop};
use html_words::RefChars;
use js_step::{after_hole, after_text};
use place_core::{Body, Js, Mode, Place, Step, StepErr, StrChars, ValuePlace};

/// Writes what a call of `js_step` gives in a value that is a script, which is given by the text of its place: where characters lead
/// to, of a text as it stands (`text`) and of a value with references (`value`), where a node ends in the value (`open`) or the value
/// with the characters (`whole`); and the chain of a hole and the place behind it (`hole`).
pub fn put_script_parts(out: &mut CaseOutput, call: &str, row: &CaseRow) -> Result<(), CaseStop> {
    let (value, js) = script_at(place_named(row.text(0)?)?)?;
    match call {
        "text open" => put_step(out, value, of_text(js, row.text(1)?, Mode::Open)?),
        "text whole" => put_step(out, value, of_text(js, row.text(1)?, Mode::Whole)?),
        "value open" => put_step(out, value, of_value(js, row.text(1)?, Mode::Open)?),
        "value whole" => put_step(out, value, of_value(js, row.text(1)?, Mode::Whole)?),
        "hole" => put_script_hole(out, value, js),
        _ => return Err(CaseStop::Form),
    }
    Ok(())
}

// The value of a place, and the place in the script that it is.
fn script_at(place: Place) -> Result<(ValuePlace, Js), CaseStop> {
    match place {
        Place::Value(value) => match value.body {
            Body::Js(js) => Ok((value, js)),
            _ => Err(CaseStop::Form),
        },
        _ => Err(CaseStop::Form),
    }
}

type Stepped = Result<Step<Js>, StepErr<Js>>;

#[tactic(auto, using(crate::proofs::CharacterCounts::text_count))]
fn of_text(js: Js, text: &str, mode: Mode) -> Result<Stepped, CaseStop> {
    if text.len() >= u32::MAX as usize || mode == Mode::Element {
        return Err(CaseStop::Form);
    }
    Ok(after_text(js, StrChars::new(text, 0), mode))
}

#[tactic(auto, using(crate::proofs::CharacterCounts::value_count))]
fn of_value(js: Js, value: &str, mode: Mode) -> Result<Stepped, CaseStop> {
    if value.len() >= u32::MAX as usize || mode == Mode::Element {
        return Err(CaseStop::Form);
    }
    let cut = mode == Mode::Open;
    Ok(after_text(js, RefChars::new(value, 0, cut), mode))
}

fn put_step(out: &mut CaseOutput, value: ValuePlace, stepped: Stepped) {
    match stepped {
        Ok(Step::Inside(js)) => put_js(out, value, js),
        Ok(Step::Ends(at)) => out.put_made(format!(in out.alloc(); "ends {at}")),
        Err(refusal) => {
            let (code, at) = (refusal.code, refusal.at);
            out.put_made(format!(in out.alloc(); "{code:?} {at} "));
            put_js(out, value, refusal.before);
        }
    }
}

fn put_script_hole(out: &mut CaseOutput, value: ValuePlace, js: Js) {
    let (after, chain) = after_hole(js);
    put_chain(out, chain);
    out.put(", ");
    put_js(out, value, after);
}

fn put_js(out: &mut CaseOutput, value: ValuePlace, js: Js) {
    put_place(
        out,
        Place::Value(ValuePlace {
            body: Body::Js(js),
            ..value
        }),
    );
}
