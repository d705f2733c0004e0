use case_table::{CaseOutput, CaseRow, CaseStop, count_of, list_of, text_of};
use page_datum::Datum;
use set_core::Core;

/// Writes what each call of `acts` on a list of published keys gives. The row has the first key and the acts, each a list
/// of a word and numbers. An act of a viewer that does not exist is no row.
pub fn put_acts(out: &mut CaseOutput, call: &str, row: &CaseRow) -> Result<(), CaseStop> {
    if call != "acts" {
        return Err(CaseStop::Form);
    }
    let mut core = Core::new(out.alloc(), row.count(0)?)?;
    for act in row.list(1)? {
        out.put_between(", ");
        put_act(out, &mut core, list_of(act)?)?;
    }
    Ok(())
}

fn put_act(out: &mut CaseOutput, core: &mut Core, act: &[Datum]) -> Result<(), CaseStop> {
    match act {
        [word] => put_plain(out, core, text_of(word)?),
        [word, key] => put_publish(out, core, text_of(word)?, count_of(key)?),
        [word, viewer, number] => {
            put_of_viewer(
                out,
                core,
                text_of(word)?,
                count_of(viewer)?,
                count_of(number)?,
            )
        }
        _ => Err(CaseStop::Form),
    }
}

// Writes what an act gives that needs no number.
fn put_plain(out: &mut CaseOutput, core: &mut Core, word: &str) -> Result<(), CaseStop> {
    match word {
        "refuse" => {
            core.refuse();
            out.put("nothing");
        }
        "tell" => out.put_count(core.tell()),
        "add_viewer" => {
            if core.viewers() >= u32::MAX as usize {
                return Err(CaseStop::Form);
            }
            let viewer = core.add_viewer()?;
            out.put_count(viewer as u64);
        }
        _ => return Err(CaseStop::Form),
    }
    Ok(())
}

fn put_publish(
    out: &mut CaseOutput,
    core: &mut Core,
    word: &str,
    key: u64,
) -> Result<(), CaseStop> {
    if word != "publish" {
        return Err(CaseStop::Form);
    }
    let number = core.publish(key)?;
    out.put_count(number);
    Ok(())
}

fn put_of_viewer(
    out: &mut CaseOutput,
    core: &mut Core,
    word: &str,
    viewer: u64,
    number: u64,
) -> Result<(), CaseStop> {
    let Ok(viewer) = u32::try_from(viewer) else {
        return Err(CaseStop::Form);
    };
    if viewer as usize >= core.viewers() {
        return Err(CaseStop::Form);
    }
    match word {
        "may_enter" => put_truth(out, core.may_enter(viewer, number)),
        "enter" => match core.enter(viewer, number) {
            Some(key) => out.put_count(key),
            None => out.put("none"),
        },
        "learn" => put_truth(out, core.learn(viewer, number)),
        _ => return Err(CaseStop::Form),
    }
    Ok(())
}

fn put_truth(out: &mut CaseOutput, truth: bool) {
    out.put(if truth { "true" } else { "false" });
}
