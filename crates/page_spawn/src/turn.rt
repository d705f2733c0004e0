// One worker behind the start gate, from its thread's side and from the side of who started it.
ghost use Rattle.std.specs.Prelude.{◌≡◌, true, false};
ghost use Rattle.page_spawn.specs.Gates.{DoesAsTold};

use crate::gate::wait_at;
use crate::worker::Worker;
use std::snapshot::Snapshot;
use std::sync::{OnceLock, OnceToken, Wait};
use std::thread::{Promise, PromisedHandle, Threads};

/// What became of a worker behind the gate.
#[derive(Drop)]
pub(crate) enum BehindGate<E, W> {
    /// The gate was open, and the worker has ended.
    Ended(E),
    /// The gate was shut, and the worker has not run.
    Back(W),
}

/// What a thread gives: what became of its worker, and what the gate was set to.
pub(crate) type TurnEnd<'g, W> = (BehindGate<<W as Worker>::End, W>, OnceToken<'g, bool>);

/// A thread that has started, with its promise.
pub(crate) type Started<'g, W> = PromisedHandle<TurnEnd<'g, W>, GatePromise<'g, W>>;

/// The promise of a thread: with this worker it does what this gate says.
#[derive(Drop)]
pub(crate) struct GatePromise<'g, W> {
    pub(crate) worker: Snapshot<W>,
    pub(crate) gate: &'g OnceLock<bool>,
}

impl<'g, W: Worker> Promise<TurnEnd<'g, W>> for GatePromise<'g, W> {
    ghost use Rattle.std.specs.Prelude.{◌≡◌};
    ghost use Rattle.page_spawn.specs.Gates.{DoesAsTold};

    ghost kept_by = { λ turn end. (end.1.of ≡ turn.gate.now.id)
        × DoesAsTold W.fulfils turn.worker.value end.0 end.1.value };
}

/// What a thread does: it waits at the gate, and works or gives the worker back.
pub(crate) fn take_turn<'g, W: Worker + Drop, R: Wait>(
    rt: &R,
    gate: &'g OnceLock<bool>,
    worker: W,
) -> TurnEnd<'g, W>
    ensures gate { result.1.of ≡ gate.now.id }
    ensures does { DoesAsTold W.fulfils worker result.0 result.1.value }
{
    let token = wait_at(rt, gate);
    if *gate.value(&token) {
        (BehindGate::Ended(worker.work()), token)
    } else {
        (BehindGate::Back(worker), token)
    }
}

/// Waits for the end of a worker whose gate was opened.
pub(crate) fn join_end<'g, W: Worker + Drop, R: Threads>(
    rt: &R,
    opened: &OnceToken<'g, bool>,
    thread: Started<'g, W>,
) -> W::End
    requires gate { thread.promise.gate.now.id ≡ opened.now.of }
    requires opened { opened.now.value ≡ true }
    ensures { W.fulfils thread.entry.promise.worker.value result }
{
    let (became, token) = thread.join(rt);
    token.agrees(opened);
    match became {
        BehindGate::Ended(end) => end,
        BehindGate::Back(_) => unreachable!(),
    }
}

/// Waits for a worker whose gate was shut.
pub(crate) fn join_back<'g, W: Worker + Drop, R: Threads>(
    rt: &R,
    shut: &OnceToken<'g, bool>,
    thread: Started<'g, W>,
) -> W
    requires gate { thread.promise.gate.now.id ≡ shut.now.of }
    requires shut { shut.now.value ≡ false }
    ensures { result ≡ thread.entry.promise.worker.value }
{
    let (became, token) = thread.join(rt);
    token.agrees(shut);
    match became {
        BehindGate::Ended(_) => unreachable!(),
        BehindGate::Back(worker) => worker,
    }
}
