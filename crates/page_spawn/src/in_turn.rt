ghost use Rattle.std.specs.Prelude.{◌≡◌, ◌≤◌, [], IfOk, IfErr, vec_len};
ghost use Rattle.std.specs.Vec.{vec_capacity};
ghost use Rattle.page_spawn.specs.Ends.{AllFulfil};

use crate::worker::Worker;
use page_io::List;
use std::alloc::Global;

/// Runs the workers one after another in this thread, the first one first. Where memory for the
/// ends runs out, none runs and all come back.
pub(crate) fn run_in_turn<W: Worker + Drop>(
    alloc: Global,
    workers: List<W>,
) -> Result<List<W::End>, List<W>>
    ensures ends { IfOk result (AllFulfil W.fulfils workers) }
    ensures back { IfErr result (λ back. back ≡ workers) }
{
    let workers = workers.into_vec();
    match Vec::with_capacity(alloc, workers.len()) {
        Ok(ends) => Ok(List::from(work_all(workers, ends))),
        Err(_) => Err(List::from(workers)),
    }
}

// Lets each worker work, and puts the ends where there is room for them.
fn work_all<W: Worker + Drop>(mut workers: Vec<W>, mut ends: Vec<W::End>) -> Vec<W::End>
    requires none { ends.items ≡ [] }
    requires room { vec_len workers ≤ vec_capacity ends }
    ensures { AllFulfil W.fulfils workers.items result.items }
{
    workers.as_mut_slice().reverse();
    while let Some(worker) = workers.pop() {
        let Ok(()) = ends.push(worker.work()) else {
            unreachable!()
        };
    }
    ends
}
