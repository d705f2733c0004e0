ghost use Rattle.std.specs.Prelude.{◌≡◌, ℕ, ◌≤◌, length, is_err, IfOk, IsSome, OnOk};
ghost use Rattle.page_io.specs.Causes.{HasCause, Rose};
ghost use Rattle.page_spawn.specs.Ends.{SpawnAnswers};
ghost use Rattle.page_spawn.specs.Faults.{Failing, SpawnCounts, FailsAs, has_failed, one_call_later, untold};

use crate::in_turn::run_in_turn;
use crate::start::run_in_threads;
use crate::worker::Worker;
use page_io::{Failed, List};
use std::alloc::Global;
use std::sync::Wait;
use std::thread::Threads;

/// Why no worker has run. All of them come back, in their order.
#[derive(Drop)]
pub enum SpawnStop<W> {
    /// The spawner failed, and has counted it.
    Failed(List<W>),
    /// Out of memory.
    Memory(List<W>),
}

/// What runs workers. `run` is the call for users; the others are what a spawner is made of.
pub trait Spawner {
    /// What starts threads.
    type Runtime: Threads + Wait + Sync;

    // Which calls of `run` fail, as far as the spawner tells it.
    ghost failing: { Self → Failing };

    // How many calls failed.
    ghost faults: { Self → ℕ };

    /// Counts a call of `run`, which may fail before anything is done.
    fn begin(&mut self) -> Result<(), Failed>
        ensures next { failing self.new ≡ one_call_later (failing self.old) }
        ensures told { FailsAs (failing self.old) (is_err result) }
        ensures kept { OnOk result (faults self.new ≡ faults self.old) }
        ensures cause { HasCause (faults self.old) (faults self.new) result };

    /// What starts a thread for each worker. Where there is nothing, the workers run one after
    /// another in the calling thread, and that cannot fail.
    fn runtime(&self) -> Option<&Self::Runtime>
        ensures { IsSome result → failing self.now ≡ untold };

    /// Counts that a thread could not be started. A spawner that tells which calls fail starts
    /// none, and has nothing to count.
    fn count_fault(&mut self)
        ensures kept { failing self.new ≡ failing self.old }
        ensures later { faults self.old ≤ faults self.new }
        ensures rose { failing self.old ≡ untold → Rose (faults self.old) (faults self.new) };

    /// Runs each worker once, and gives their ends in the order of the workers, once all have
    /// ended. Or gives all workers back in their order, none of which has run: `Failed` where the
    /// spawner failed, and only then its count of faults rises; `Memory` where memory ran out.
    final fn run<W: Worker + Send + Drop>(
        &mut self,
        alloc: Global,
        workers: List<W>,
    ) -> Result<List<W::End>, SpawnStop<W>>
        ensures ends { SpawnAnswers W.fulfils workers result }
        ensures len { IfOk result (λ ends. length ends ≡ length workers) }
        ensures later { faults self.old ≤ faults self.new }
        ensures cause { SpawnCounts (faults self.old) (faults self.new) result }
        ensures told { FailsAs (failing self.old) (has_failed result) }
        ensures next { failing self.new ≡ one_call_later (failing self.old) }
    {
        match self.begin() {
            Ok(()) => {}
            Err(_) => return Err(SpawnStop::Failed(workers)),
        }
        let Some(rt) = self.runtime() else {
            return match run_in_turn(alloc, workers) {
                Ok(ends) => Ok(ends),
                Err(back) => Err(SpawnStop::Memory(back)),
            };
        };
        match run_in_threads(rt, alloc, workers) {
            Ok(ends) => Ok(ends),
            Err(SpawnStop::Memory(back)) => Err(SpawnStop::Memory(back)),
            Err(SpawnStop::Failed(back)) => {
                self.count_fault();
                Err(SpawnStop::Failed(back))
            }
        }
    }
}
