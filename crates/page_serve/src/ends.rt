// The ends of workers: what is written of them, and their doors.
ghost use Rattle.std.specs.Prelude.{◌≡◌, ◌≤◌, ◌<◌, ◌^◌, length};
ghost use Rattle.page_io.specs.Causes.{Rose};
ghost use Rattle.page_net.specs.Tellings.{BothTold};
ghost use Rattle.page_serve.specs.DoorMoves.{HasFailedDoor, HaveDoorsOut, MovesDoors};
ghost use Rattle.page_serve.specs.ServeAnswers.{ReportAnswers};
ghost use Rattle.page_serve.specs.SummaryLines as spec;
ghost use Rattle.page_serve.specs.Workers.{doors_of_ends};

use crate::stop::ServeStop;
use crate::summary::summary_text;
use page_io::{Failed, List, Memory, Sink, write_all};
use page_net::Net;
use page_worker::Ended;
use std::alloc::Global;

/// Gives the doors of all workers back, and writes the summary. `Net` where a worker's door failed.
pub fn report<N: Net, O: Sink>(
    alloc: Global,
    ends: List<Ended<N::Door>>,
    net: &mut N,
    out: &mut O,
) -> Result<(), ServeStop>
where
    N::Door: Drop,
    requires out { HaveDoorsOut (length ends) (N.told net.old) }
    requires count { length ends < 2 ^ 32 }
    ensures written { ReportAnswers ends (O.taken out.old) (O.taken out.new) result }
    ensures back { BothTold (N.told net.old) (N.told net.new)
        (λ old now. MovesDoors old now 0 (doors_of_ends ends)) }
    ensures net_later { N.faults net.old ≤ N.faults net.new }
    ensures out_later { O.faults out.old ≤ O.faults out.new }
    ensures net { HasFailedDoor N.Door.faults (doors_of_ends ends)
        → Rose (N.faults net.old) (N.faults net.new) }
    ensures write { result ≡ Err ServeStop.Write → Rose (O.faults out.old) (O.faults out.new) }
{
    let failed = has_door_fault(ends.as_slice());
    let text = summary_text(alloc, ends.as_slice());
    close_ends(net, ends);
    let text = match text {
        Ok(text) => text,
        Err(Memory) => return Err(ServeStop::Memory),
    };
    match write_all(out, text.as_str().as_bytes()) {
        Ok(()) if failed => Err(ServeStop::Net),
        Ok(()) => Ok(()),
        Err(Failed) => Err(ServeStop::Write),
    }
}

// Whether a worker's door failed.
fn has_door_fault<D>(ends: &[Ended<D>]) -> bool
    ensures { result ≡ spec.has_door_fault ends.now }
{
    ends.iter().any(|ended| ended.end.door_fault)
}

// Gives the doors of workers back to their net, in order.
fn close_ends<N: Net>(net: &mut N, ends: List<Ended<N::Door>>)
where
    N::Door: Drop,
    requires { HaveDoorsOut (length ends) (N.told net.old) }
    ensures back { BothTold (N.told net.old) (N.told net.new)
        (λ old now. MovesDoors old now 0 (doors_of_ends ends)) }
    ensures later { N.faults net.old ≤ N.faults net.new }
    ensures failed { HasFailedDoor N.Door.faults (doors_of_ends ends)
        → Rose (N.faults net.old) (N.faults net.new) }
{
    let mut ends = ends.into_vec();
    ends.as_mut_slice().reverse();
    while let Some(ended) = ends.pop() {
        net.close(ended.door);
    }
}
