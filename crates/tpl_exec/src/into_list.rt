ghost use Rattle.std.specs.Prelude.{◌<◌, length};
ghost use Rattle.tpl_exec.specs.Executing.{run_of};
ghost use Rattle.tpl_exec.specs.Lists.{ExecuteIntoAnswers, Lists};

use crate::exec::execute;
use crate::stop::ExecStop;
use page_datum::Datum;
use std::alloc::Global;
use tpl_events::ListSink;
use tpl_tree::Forest;

/// Executes a template of a forest with a datum into a list, which then has its events up to the one that it refuses.
pub fn execute_into(
    alloc: Global,
    forest: &Forest,
    root: u32,
    datum: &Datum,
    list: &mut ListSink,
) -> Result<u64, ExecStop>
    requires { root < length forest.now }
    ensures answers { ExecuteIntoAnswers forest.now root datum.now list.old list.new result }
    ensures events { Lists (run_of forest.now root datum.now) list.old result list.new }
{
    execute(alloc, forest, root, datum, list)
}
