// The doors of a net, one for each worker.
ghost use Rattle.std.specs.Prelude.{◌≡◌, ◌≤◌, length, IfOk};
ghost use Rattle.page_io.specs.Causes.{HasStop, Rose};
ghost use Rattle.page_net.specs.Tellings.{BothTold};
ghost use Rattle.page_serve.specs.DoorMoves.{HasFailedDoor, HaveDoorsOut, MovesDoors, TakeDoorsAnswers};

use page_io::{IoStop, List};
use page_net::Net;
use std::alloc::Global;

/// Takes so many doors at an address. Where one is not given, those before it go back, and the
/// answer says why; `Failed` comes only where the net's count of faults rose.
pub fn take_doors<N: Net>(
    alloc: Global,
    net: &mut N,
    address: &str,
    count: u32,
) -> Result<List<N::Door>, IoStop>
where
    N::Door: Drop,
    ensures doors { TakeDoorsAnswers N.Door.faults N.Door.told count
        (N.told net.old) (N.told net.new) result }
    ensures out { IfOk result (λ doors. HaveDoorsOut (length doors) (N.told net.new)) }
    ensures cause { HasStop (N.faults net.old) (N.faults net.new) result }
{
    let Ok(mut doors) = Vec::with_capacity(alloc, count as usize) else {
        return Err(IoStop::Memory);
    };
    for _ in 0..count {
        match net.door(alloc, address) {
            Ok(door) => {
                let Ok(()) = doors.push(door) else {
                    unreachable!()
                };
            }
            Err(stop) => {
                close_doors(net, List::from(doors));
                return Err(stop);
            }
        }
    }
    Ok(List::from(doors))
}

/// Gives doors back to their net, in order. The net's count of faults rises where one of them had
/// failed. It does not allocate.
pub fn close_doors<N: Net>(net: &mut N, doors: List<N::Door>)
where
    N::Door: Drop,
    requires { HaveDoorsOut (length doors) (N.told net.old) }
    ensures back { BothTold (N.told net.old) (N.told net.new)
        (λ old now. MovesDoors old now 0 doors) }
    ensures later { N.faults net.old ≤ N.faults net.new }
    ensures failed { HasFailedDoor N.Door.faults doors
        → Rose (N.faults net.old) (N.faults net.new) }
{
    let mut doors = doors.into_vec();
    doors.as_mut_slice().reverse();
    while let Some(door) = doors.pop() {
        net.close(door);
    }
}
