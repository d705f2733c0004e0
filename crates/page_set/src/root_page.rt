ghost use Rattle.std.specs.Prelude.{map};
ghost use Rattle.page_check.specs.CheckedSets.{IsChecked};
ghost use Rattle.page_datum.specs.View.{view};
ghost use Rattle.page_set.specs.RootPages.{RootPageAnswers};
ghost use Rattle.page_writer.specs.Outputs.{AreOutputs};

use page_check::Checked;
use page_datum::{Datum, PageStop};
use page_writer::{Composed, Output, compose};
use std::alloc::Global;
use tpl_exec::ExecStop;

/// The page of a root of checked files with a datum, whole, by the outputs of their chart; or why there is none.
pub fn root_page(
    alloc: Global,
    checked: &Checked,
    outputs: &[Vec<Output>],
    root: &str,
    datum: &Datum,
) -> Result<Composed, PageStop>
    requires { AreOutputs checked.now.forest checked.now.chart
        (map (λ row. row.items) outputs.now) }
    ensures answers { RootPageAnswers checked.now root.now (view datum.now) result }
    ensures checked { IsChecked checked.now }
{
    let (forest, chart) = (checked.forest(), checked.chart());
    if !checked.is_root(root) {
        return Err(PageStop::NoTemplate);
    }
    let template = match forest.find(root) {
        Some(template) => template,
        None => unreachable!(),
    };
    match compose(alloc, forest, chart, outputs, template, datum) {
        Ok(made) => Ok(made),
        Err(ExecStop::Fault(fault)) => Err(PageStop::Fault(fault)),
        Err(ExecStop::SinkStop) => unreachable!(),
        Err(ExecStop::Memory) => Err(PageStop::Memory),
    }
}
