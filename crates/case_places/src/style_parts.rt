use crate::read_place::place_named;
use crate::steps::{put_chain, put_place};
use case_table::{CaseOutput, CaseRow, CaseStop};
use css_step::{after_hole, after_text};
use html_words::RefChars;
use place_core::{Body, Css, Mode, Place, Step, StepErr, StrChars, ValuePlace};

/// Writes what a call of `css_step` gives in a value that is a style, which is given by the text of its place: where characters lead
/// to, of a text as it stands (`text`) and of a value with references (`value`), where a node ends in the value (`open`) or the value
/// with the characters (`whole`); and the chain of a hole and the place behind it (`hole`).
pub fn put_style_parts(out: &mut CaseOutput, call: &str, row: &CaseRow) -> Result<(), CaseStop> {
    let (value, css) = style_at(place_named(row.text(0)?)?)?;
    match call {
        "text open" => put_step(out, value, of_text(css, row.text(1)?, Mode::Open)?),
        "text whole" => put_step(out, value, of_text(css, row.text(1)?, Mode::Whole)?),
        "value open" => put_step(out, value, of_value(css, row.text(1)?, Mode::Open)?),
        "value whole" => put_step(out, value, of_value(css, row.text(1)?, Mode::Whole)?),
        "hole" => put_style_hole(out, value, css),
        _ => return Err(CaseStop::Form),
    }
    Ok(())
}

// The value of a place, and the place in the style that it is.
fn style_at(place: Place) -> Result<(ValuePlace, Css), CaseStop> {
    match place {
        Place::Value(value) => match value.body {
            Body::Css(css) => Ok((value, css)),
            _ => Err(CaseStop::Form),
        },
        _ => Err(CaseStop::Form),
    }
}

type Stepped = Result<Step<Css>, StepErr<Css>>;

fn of_text(css: Css, text: &str, mode: Mode) -> Result<Stepped, CaseStop> {
    if text.len() >= u32::MAX as usize || mode == Mode::Element {
        return Err(CaseStop::Form);
    }
    Ok(after_text(css, StrChars::new(text, 0), mode))
}

fn of_value(css: Css, value: &str, mode: Mode) -> Result<Stepped, CaseStop> {
    if value.len() >= u32::MAX as usize || mode == Mode::Element {
        return Err(CaseStop::Form);
    }
    let cut = mode == Mode::Open;
    Ok(after_text(css, RefChars::new(value, 0, cut), mode))
}

fn put_step(out: &mut CaseOutput, value: ValuePlace, stepped: Stepped) {
    match stepped {
        Ok(Step::Inside(css)) => put_css(out, value, css),
        Ok(Step::Ends(at)) => out.put_made(format!(in out.alloc(); "ends {at}")),
        Err(refusal) => {
            let (code, at) = (refusal.code, refusal.at);
            out.put_made(format!(in out.alloc(); "{code:?} {at} "));
            put_css(out, value, refusal.before);
        }
    }
}

fn put_style_hole(out: &mut CaseOutput, value: ValuePlace, css: Css) {
    match after_hole(css) {
        Ok((after, chain)) => {
            put_chain(out, chain);
            out.put(", ");
            put_css(out, value, after);
        }
        Err(code) => out.put_made(format!(in out.alloc(); "{code:?}")),
    }
}

fn put_css(out: &mut CaseOutput, value: ValuePlace, css: Css) {
    put_place(
        out,
        Place::Value(ValuePlace {
            body: Body::Css(css),
            ..value
        }),
    );
}
