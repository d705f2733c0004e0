ghost use Rattle.std.specs.Prelude.{◌≡◌};
ghost use Rattle.page_spawn.specs.Faults.{never};

use crate::spawner::Spawner;
use page_io::Failed;
use std::marker::PhantomData;
use std::sync::Wait;
use std::thread::Threads;

/// Runs the workers one after another in the calling thread, and never fails. It starts no thread:
/// `R` is what would start them.
#[derive(Drop)]
pub struct SureSpawner<R> {
    runtime: PhantomData<R>,
}

impl<R: Threads + Wait + Sync> SureSpawner<R> {
    /// A spawner that never fails.
    pub fn new() -> SureSpawner<R>
        ensures failing { ⟦<SureSpawner<R> as Spawner>⟧.failing result ≡ never }
        ensures faults { ⟦<SureSpawner<R> as Spawner>⟧.faults result ≡ 0 }
    {
        SureSpawner {
            runtime: PhantomData,
        }
    }
}

impl<R: Threads + Wait + Sync> Spawner for SureSpawner<R> {
    ghost use Rattle.page_spawn.specs.Faults.{never};

    type Runtime = R;

    ghost failing = { λ _. never };

    ghost faults = { λ _. 0 };

    fn begin(&mut self) -> Result<(), Failed> {
        Ok(())
    }

    fn runtime(&self) -> Option<&R> {
        None
    }

    fn count_fault(&mut self) {}
}
