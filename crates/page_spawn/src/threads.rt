ghost use Rattle.std.specs.Prelude.{◌≡◌};
ghost use Rattle.page_spawn.specs.Faults.{untold};

use crate::spawner::Spawner;
use page_io::Failed;
use std::sync::Wait;
use std::thread::Threads;

/// Runs each worker in a thread of its own. Memory is taken first; then all threads are started,
/// and wait at a gate until the last one has started. Where one cannot be started, the gate sends
/// all workers back, and the call fails.
#[derive(Drop)]
pub struct ThreadSpawner<'r, R: Threads + Wait + Sync> {
    rt: &'r R,
    faults: u64,
}

impl<'r, R: Threads + Wait + Sync> ThreadSpawner<'r, R> {
    /// A spawner that starts threads by `rt`, and has not failed yet.
    pub fn new(rt: &'r R) -> ThreadSpawner<'r, R>
        ensures failing { ⟦<ThreadSpawner<'r, R> as Spawner>⟧.failing result ≡ untold }
        ensures faults { ⟦<ThreadSpawner<'r, R> as Spawner>⟧.faults result ≡ 0 }
    {
        ThreadSpawner { rt, faults: 0 }
    }
}

impl<'r, R: Threads + Wait + Sync> Spawner for ThreadSpawner<'r, R> {
    ghost use Rattle.page_spawn.specs.Faults.{untold};

    type Runtime = R;

    ghost failing = { λ _. untold };

    ghost faults = { λ s. s.faults };

    fn begin(&mut self) -> Result<(), Failed> {
        Ok(())
    }

    fn runtime(&self) -> Option<&R> {
        Some(self.rt)
    }

    fn count_fault(&mut self) {
        self.faults = self.faults.saturating_add(1);
    }
}
