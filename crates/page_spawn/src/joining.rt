// All threads that were started, the last worker's first.
ghost use Rattle.std.specs.Prelude.{◌≡◌, ◌≤◌, ◌+◌, ◌++◌, [], vec_len, reverse, map, true, false};
ghost use Rattle.std.specs.Vec.{vec_capacity};
ghost use Rattle.page_spawn.specs.Ends.{AllFulfil};
ghost use Rattle.page_spawn.specs.Gates.{Each};

use crate::turn::{Started, join_back, join_end};
use crate::worker::Worker;
use std::sync::OnceToken;
use std::thread::Threads;

/// The ends of all workers behind an open gate, in the order of the workers.
pub(crate) fn join_ends<'g, W: Worker + Drop, R: Threads>(
    rt: &R,
    opened: &OnceToken<'g, bool>,
    mut threads: Vec<Started<'g, W>>,
    mut ends: Vec<W::End>,
) -> Vec<W::End>
    requires gates { Each (λ thread. thread.promise.gate.now.id ≡ opened.now.of) threads.items }
    requires opened { opened.now.value ≡ true }
    requires none { ends.items ≡ [] }
    requires room { vec_len threads ≤ vec_capacity ends }
    ensures { AllFulfil W.fulfils
        (reverse (map (λ thread. thread.promise.worker.value) threads.entry.items)) result.items }
{
    while let Some(thread) = threads.pop() {
        let Ok(()) = ends.push(join_end(rt, opened, thread)) else {
            unreachable!()
        };
    }
    ends
}

/// Puts all workers behind a shut gate where they were, after those that were not started.
pub(crate) fn put_back<'g, W: Worker + Drop, R: Threads>(
    rt: &R,
    shut: &OnceToken<'g, bool>,
    mut threads: Vec<Started<'g, W>>,
    mut workers: Vec<W>,
) -> Vec<W>
    requires gates { Each (λ thread. thread.promise.gate.now.id ≡ shut.now.of) threads.items }
    requires shut { shut.now.value ≡ false }
    requires room { vec_len workers + vec_len threads ≤ vec_capacity workers }
    ensures { result.items ≡ workers.items
        ++ reverse (map (λ thread. thread.promise.worker.value) threads.entry.items) }
{
    while let Some(thread) = threads.pop() {
        let Ok(()) = workers.push(join_back(rt, shut, thread)) else {
            unreachable!()
        };
    }
    workers
}
