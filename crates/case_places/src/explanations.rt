use crate::charts::roots_of;
use case_table::{CaseOutput, CaseRow, CaseStop};
use case_templates::forest_of;
use place_explain::explain;
use place_infer::{Chart, SetRefused, infer};
use tpl_tree::Forest;

/// Writes what a call of `place_explain` gives: what `explain` says of a root, by its name, in the chart of files, each a
/// list of a name and a text; or that the set is refused.
#[tactic(auto, using(crate::proofs::ParsedFiles::breaks_stand))]
pub fn put_explained(out: &mut CaseOutput, call: &str, row: &CaseRow) -> Result<(), CaseStop> {
    if call != "explain" {
        return Err(CaseStop::Form);
    }
    let files = row.list(0)?;
    let Some(forest) = forest_of(out.alloc(), files)? else {
        return Err(CaseStop::Form);
    };
    let roots = roots_of(out.alloc(), &forest, files)?;
    match infer(out.alloc(), &forest, &roots) {
        Ok(chart) => return put_root(out, &forest, &chart, row.text(1)?),
        Err(SetRefused::Memory) => out.lose(),
        Err(_) => out.put("refused"),
    }
    Ok(())
}

fn put_root(
    out: &mut CaseOutput,
    forest: &Forest,
    chart: &Chart,
    name: &str,
) -> Result<(), CaseStop> {
    let Some(root) = forest.find(name) else {
        return Err(CaseStop::Form);
    };
    let Some(start) = chart.start(root) else {
        return Err(CaseStop::Form);
    };
    out.put_text(explain(out.alloc(), forest, chart, start));
    Ok(())
}
