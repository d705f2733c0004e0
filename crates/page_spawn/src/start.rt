ghost use Rattle.std.specs.Prelude.{◌≡◌, ◌≤◌, ◌+◌, ◌++◌, [], vec_len, reverse, map, IfOk, IfErr, IfSome, IfNone, false};
ghost use Rattle.std.specs.Vec.{vec_capacity};
ghost use Rattle.page_spawn.specs.Ends.{SpawnAnswers};
ghost use Rattle.page_spawn.specs.Gates.{DoesAsTold, Each};

use crate::gate::set;
use crate::joining::{join_ends, put_back};
use crate::spawner::SpawnStop;
use crate::turn::{BehindGate, GatePromise, Started, TurnEnd, take_turn};
use crate::worker::Worker;
use page_io::List;
use std::alloc::Global;
use std::snapshot::Snapshot;
use std::sync::{OnceLock, OnceToken, Wait};
use std::thread;
use std::thread::{Scope, Threads};

/// Runs each worker in a thread of its own, and returns when all threads have ended.
pub(crate) fn run_in_threads<W: Worker + Send + Drop, R: Threads + Wait + Sync>(
    rt: &R,
    alloc: Global,
    workers: List<W>,
) -> Result<List<W::End>, SpawnStop<W>>
    ensures { SpawnAnswers W.fulfils workers result }
{
    let lock = OnceLock::new();
    let gate = &lock;
    thread::scope(
        thread::scope_env(),
        rt,
        move |scope| -> Result<List<W::End>, SpawnStop<W>>
            ensures { SpawnAnswers W.fulfils workers result }
        { run_in_scope(scope, rt, alloc, gate, workers) },
    )
}

// Takes the memory, starts a thread for each worker, sets the gate and joins the threads.
fn run_in_scope<'s, W: Worker + Send + Drop + 's, R: Threads + Wait + Sync, E>(
    scope: &Scope<'s, E>,
    rt: &'s R,
    alloc: Global,
    gate: &'s OnceLock<bool>,
    workers: List<W>,
) -> Result<List<W::End>, SpawnStop<W>>
    ensures { SpawnAnswers W.fulfils workers result }
{
    let mut workers = workers.into_vec();
    let Ok(mut threads) = Vec::with_capacity(alloc, workers.len()) else {
        return Err(SpawnStop::Memory(List::from(workers)));
    };
    let Ok(ends) = Vec::with_capacity(alloc, workers.len()) else {
        return Err(SpawnStop::Memory(List::from(workers)));
    };
    match start_each(scope, rt, gate, &mut workers, &mut threads) {
        Some(shut) => {
            let back = put_back(rt, &shut, threads, workers);
            Err(SpawnStop::Failed(List::from(back)))
        }
        None => {
            let opened = set(rt, gate, true);
            Ok(List::from(join_ends(rt, &opened, threads, ends)))
        }
    }
}

// Starts a thread for each worker, the last one first. Where one cannot be started, its worker is
// back in its place, and the gate is shut.
fn start_each<'s, W: Worker + Send + Drop + 's, R: Threads + Wait + Sync, E>(
    scope: &Scope<'s, E>,
    rt: &'s R,
    gate: &'s OnceLock<bool>,
    workers: &mut Vec<W>,
    threads: &mut Vec<Started<'s, W>>,
) -> Option<OnceToken<'s, bool>>
    requires none { threads.old.items ≡ [] }
    requires room { vec_len workers.old ≤ vec_capacity threads.old }
    ensures gates { Each (λ thread. thread.promise.gate.now.id ≡ gate.now.id) threads.new.items }
    ensures all { workers.old.items ≡ workers.new.items
        ++ reverse (map (λ thread. thread.promise.worker.value) threads.new.items) }
    ensures room { vec_len workers.new + vec_len threads.new ≤ vec_capacity workers.new }
    ensures shut { IfSome result (λ shut. (shut.of ≡ gate.now.id) × (shut.value ≡ false)) }
    ensures started { IfNone result (workers.new.items ≡ []) }
{
    while let Some(worker) = workers.pop() {
        match start(scope, rt, gate, worker) {
            Ok(thread) => {
                let Ok(()) = threads.push(thread) else {
                    unreachable!()
                };
            }
            Err((worker, shut)) => {
                let Ok(()) = workers.push(worker) else {
                    unreachable!()
                };
                return Some(shut);
            }
        }
    }
    None
}

// Starts a thread for a worker. Where that cannot be done, the gate is shut and the worker is back.
fn start<'s, W: Worker + Send + Drop + 's, R: Threads + Wait + Sync, E>(
    scope: &Scope<'s, E>,
    rt: &'s R,
    gate: &'s OnceLock<bool>,
    worker: W,
) -> Result<Started<'s, W>, (W, OnceToken<'s, bool>)>
    ensures worker { IfOk result (λ thread. thread.promise.worker.value ≡ worker) }
    ensures gate { IfOk result (λ thread. thread.promise.gate.now.id ≡ gate.now.id) }
    ensures back { IfErr result (λ refused. refused.0 ≡ worker) }
    ensures shut { IfErr result (λ refused.
        (refused.1.of ≡ gate.now.id) × (refused.1.value ≡ false)) }
{
    let turn = GatePromise {
        worker: Snapshot::of(&worker),
        gate,
    };
    let run = move || -> TurnEnd<'_, W>
        ensures gate { result.1.of ≡ gate.entry.now.id }
        ensures does { DoesAsTold W.fulfils worker result.0 result.1.value }
    { take_turn(rt, gate, worker) };
    match scope.spawn_with(turn, run) {
        Ok(thread) => Ok(thread),
        Err(refused) => {
            let shut = set(rt, gate, false);
            // The closure is called here: the gate is shut, so it gives the worker back.
            let (became, token) = (refused.value)();
            token.agrees(&shut);
            match became {
                BehindGate::Ended(_) => unreachable!(),
                BehindGate::Back(worker) => Err((worker, shut)),
            }
        }
    }
}
