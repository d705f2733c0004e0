use crate::case_row::{count_of, text_of};
use crate::case_stop::CaseStop;
use crate::output::CaseOutput;
use page_datum::{Datum, Entries, Items};
use page_io::Text;
use std::alloc::Global;

/// How many cases parts stand for: the product of the numbers of alternatives of their parts of the form `each`.
#[cycle(cases)]
pub fn cases_of(items: &Items) -> u64 {
    let mut cases: u64 = 1;
    for item in items.as_slice() {
        cases = cases.saturating_mul(cases_at(item));
    }
    cases
}

#[cycle(cases)]
fn cases_at(item: &Datum) -> u64 {
    match item {
        Datum::List(items) => cases_of(items),
        Datum::Dict(form) => cases_in_form(form),
        _ => 1,
    }
}

#[cycle(cases)]
fn cases_in_form(form: &Entries) -> u64 {
    let mut cases: u64 = 1;
    for (key, part) in form.as_slice() {
        cases = match (key.as_str(), part) {
            ("each", Datum::List(items)) => items.len() as u64,
            _ => cases_at(part),
        };
    }
    cases
}

/// Parts with their forms made out: a text repeated, texts joined, one of several. `choice` says which one, and is left for
/// the forms that follow.
#[cycle(expand)]
pub fn expanded(alloc: Global, items: &Items, choice: &mut u64) -> Result<Vec<Datum>, CaseStop> {
    let mut all = Vec::new(alloc);
    for item in items.as_slice() {
        all.push(expanded_part(alloc, item, choice)?)?;
    }
    Ok(all)
}

#[cycle(expand)]
fn expanded_part(alloc: Global, item: &Datum, choice: &mut u64) -> Result<Datum, CaseStop> {
    match item {
        Datum::List(items) => Ok(Datum::List(Items::from(expanded(alloc, items, choice)?))),
        Datum::Dict(form) if form.get("hex").is_none() => expanded_form(alloc, form, choice),
        leaf => Ok(leaf.copy(alloc)?),
    }
}

// A form made out. The keys of a form ascend.
#[cycle(expand)]
fn expanded_form(alloc: Global, form: &Entries, choice: &mut u64) -> Result<Datum, CaseStop> {
    for (key, part) in form.as_slice() {
        match (key.as_str(), part) {
            ("each", Datum::List(items)) => return chosen(alloc, items, choice),
            ("parts", Datum::List(items)) => {
                return joined(alloc, expanded(alloc, items, choice)?);
            }
            ("text", part) => return repeated(form, expanded_part(alloc, part, choice)?),
            ("counted", _) => {}
            _ => return Err(CaseStop::Form),
        }
    }
    Err(CaseStop::Form)
}

// The alternative that `choice` says, made out.
#[cycle(expand)]
fn chosen(alloc: Global, items: &Items, choice: &mut u64) -> Result<Datum, CaseStop> {
    let count = items.len() as u64;
    if count == 0 {
        return Err(CaseStop::Form);
    }
    let number = *choice % count;
    *choice /= count;
    match items.as_slice().get(number as usize) {
        Some(item) => expanded_part(alloc, item, choice),
        None => Err(CaseStop::Form),
    }
}

// Texts one after another.
fn joined(alloc: Global, parts: Vec<Datum>) -> Result<Datum, CaseStop> {
    let mut out = CaseOutput::new(alloc);
    for part in parts.as_slice() {
        out.put(text_of(part)?);
    }
    Ok(Datum::Text(out.finish()?))
}

// The text of a form repeated, or repeated and counted.
fn repeated(form: &Entries, text: Datum) -> Result<Datum, CaseStop> {
    match (form.get("times"), form.get("counted"), &text) {
        (Some(times), None, Datum::Text(text)) => Ok(Datum::Text(repeat(text, count_of(times)?)?)),
        (None, Some(times), Datum::Text(text)) => Ok(Datum::Text(count(text, count_of(times)?)?)),
        _ => Err(CaseStop::Form),
    }
}

fn repeat(text: &Text, times: u64) -> Result<Text, CaseStop> {
    let mut out = CaseOutput::new(text.allocator());
    for _ in 0..times {
        out.put(text.as_str());
    }
    out.finish()
}

// A text repeated, with the number of the turn for each `#` and the number after it for each `@`.
fn count(text: &Text, times: u64) -> Result<Text, CaseStop> {
    let mut out = CaseOutput::new(text.allocator());
    for turn in 0..times {
        put_turn(&mut out, text.as_str(), turn);
    }
    out.finish()
}

fn put_turn(out: &mut CaseOutput, text: &str, turn: u64) {
    let alloc = out.alloc();
    for char in text.chars() {
        match char {
            '#' => out.put_made(format!(in alloc; "{turn}")),
            '@' => {
                let next = turn.saturating_add(1);
                out.put_made(format!(in alloc; "{next}"));
            }
            char => out.put_made(format!(in alloc; "{char}")),
        }
    }
}
