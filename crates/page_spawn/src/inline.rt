ghost use Rattle.std.specs.Prelude.{◌≡◌};
ghost use Rattle.page_spawn.specs.Faults.{numbered};

use crate::spawner::Spawner;
use page_io::{Failed, List};
use std::marker::PhantomData;
use std::sync::Wait;
use std::thread::Threads;

/// Runs the workers one after another in the calling thread, and fails at stated calls. It starts
/// no thread: `R` is what would start them.
#[derive(Drop)]
pub struct InlineSpawner<R> {
    fail: List<u64>,
    made: u64,
    faults: u64,
    runtime: PhantomData<R>,
}

impl<R: Threads + Wait + Sync> InlineSpawner<R> {
    /// A spawner of which exactly the calls with the numbers in `fail` fail, counted from 1. The
    /// count of calls stands still at 2^64 - 1.
    pub fn new(fail: List<u64>) -> InlineSpawner<R>
        ensures failing { ⟦<InlineSpawner<R> as Spawner>⟧.failing result ≡ numbered fail 0 }
        ensures faults { ⟦<InlineSpawner<R> as Spawner>⟧.faults result ≡ 0 }
    {
        InlineSpawner {
            fail,
            made: 0,
            faults: 0,
            runtime: PhantomData,
        }
    }
}

impl<R: Threads + Wait + Sync> Spawner for InlineSpawner<R> {
    ghost use Rattle.page_spawn.specs.Faults.{numbered};

    type Runtime = R;

    ghost failing = { λ s. numbered s.fail s.made };

    ghost faults = { λ s. s.faults };

    fn begin(&mut self) -> Result<(), Failed> {
        self.made = self.made.saturating_add(1);
        if self.fail.as_slice().contains(&self.made) {
            self.faults = self.faults.saturating_add(1);
            return Err(Failed);
        }
        Ok(())
    }

    fn runtime(&self) -> Option<&R> {
        None
    }

    fn count_fault(&mut self) {}
}
