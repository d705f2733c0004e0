use crate::pairs::put_chart;
use crate::showings::put_shown;
use case_table::{CaseOutput, CaseRow, CaseStop, pair_of, text_of};
use case_templates::forest_of;
use page_datum::Datum;
use page_io::{List, Names, Text};
use place_core::Code;
use place_infer::{SetRefused, infer};
use place_show::Showing;
use std::alloc::Global;
use tpl_tree::Forest;

/// Writes what a call of `place_infer` gives: the `chart` of files, each a list of a name and a text, whose own templates
/// are the roots; or that the set is refused, for one path or two (`error`), for the `end` of a root, or for `too many`
/// pairs; `shown` writes the refusal with its paths.
#[tactic(auto, using(crate::proofs::ParsedFiles::breaks_stand))]
pub fn put_charts(out: &mut CaseOutput, call: &str, row: &CaseRow) -> Result<(), CaseStop> {
    if call != "chart" && call != "shown" {
        return Err(CaseStop::Form);
    }
    let files = row.list(0)?;
    let Some(forest) = forest_of(out.alloc(), files)? else {
        out.put("a file is refused");
        return Ok(());
    };
    let roots = roots_of(out.alloc(), &forest, files)?;
    match infer(out.alloc(), &forest, &roots) {
        Ok(chart) => put_chart(out, &forest, &chart),
        Err(why) if call == "shown" => put_shown(out, why),
        Err(why) => put_refusal(out, why),
    }
    Ok(())
}

/// The names of files, in the order of a forest of these files.
pub fn roots_of(alloc: Global, forest: &Forest, files: &[Datum]) -> Result<Names, CaseStop> {
    let mut roots = List::new(alloc);
    for n in 0..forest.count() {
        let name = forest.name(n as u32);
        if is_file(files, name)? {
            roots.push(Text::copy_of(alloc, name)?)?;
        }
    }
    Ok(roots)
}

// Whether one of some files has a name.
fn is_file(files: &[Datum], wanted: &str) -> Result<bool, CaseStop> {
    for file in files {
        let (name, _) = pair_of(file)?;
        if text_of(name)? == wanted {
            return Ok(true);
        }
    }
    Ok(false)
}

fn put_refusal(out: &mut CaseOutput, why: SetRefused) {
    match why {
        SetRefused::Shows(showing) => put_kind(out, &showing),
        SetRefused::TooManyDerived => out.put("too many"),
        SetRefused::Memory => out.lose(),
    }
}

// Writes whether a path ends a root elsewhere, and which root, or that another error stands.
fn put_kind(out: &mut CaseOutput, showing: &Showing) {
    match showing.code {
        Code::EndContext => {
            out.put("end ");
            out.put(showing.root.as_str());
        }
        _ => out.put("error"),
    }
}
