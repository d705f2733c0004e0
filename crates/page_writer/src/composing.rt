ghost use Rattle.std.specs.Prelude.{◌<◌, length, map, unwrap_or, []};
ghost use Rattle.page_datum.specs.View.{view};
ghost use Rattle.page_writer.specs.Composing.{ComposeAnswers, IsCharted};
ghost use Rattle.page_writer.specs.Outputs.{AreOutputs};
ghost use Rattle.tpl_tree.specs.Forests.{tree_name_at};

use crate::output::Output;
use crate::writer::PageWriter;
use page_datum::Datum;
use page_path::pages_are_sound;
use place_infer::Chart;
use std::alloc::Global;
use tpl_exec::{ExecStop, execute};
use tpl_tree::Forest;

/// A whole page, and the steps of its execution.
#[derive(Debug, Drop)]
pub struct Composed {
    pub page: String,
    pub steps: u64,
}

/// The page of a root, by the number of its template, with a datum: from the outputs of the set's chart. It is the execution of the root,
/// whole, and sound: it has the shape of the path that the execution took, whatever the datum, and each value is plain in its place and
/// reads back there. The errors are the fault of the execution, TooLong among them where the page would have more than 16,777,216 bytes,
/// and out of memory.
pub fn compose(
    alloc: Global,
    forest: &Forest,
    chart: &Chart,
    outputs: &[Vec<Output>],
    root: u32,
    datum: &Datum,
) -> Result<Composed, ExecStop>
    requires root { root < length forest.now }
    requires set { IsCharted forest.now chart.now (unwrap_or (tree_name_at forest.now root) []) }
    requires outputs { AreOutputs forest.now chart.now (map (λ row. row.items) outputs.now) }
    ensures { ComposeAnswers forest.now (unwrap_or (tree_name_at forest.now root) [])
        (view datum.now) result }
{
    pages_are_sound();
    let pair = match chart.start(root) {
        Some(pair) => pair,
        None => unreachable!(),
    };
    let mut writer = PageWriter::new(alloc, outputs, pair)?;
    match execute(alloc, forest, root, datum, &mut writer) {
        Ok(steps) => Ok(Composed {
            page: writer.into_page(),
            steps,
        }),
        Err(stop) => Err(stop),
    }
}
