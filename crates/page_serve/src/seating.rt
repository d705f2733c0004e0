// The viewers of a desk, one for each worker.
ghost use Rattle.std.specs.Prelude.{◌≡◌, ◌≤◌, IfOk, IsErrOf};
ghost use Rattle.page_io.specs.Causes.{Rose};
ghost use Rattle.page_serve.specs.Seating.{SeatsAll};
ghost use Rattle.set_publisher.specs.declared.seats.SeatStop.TheVariants.{Failed};

use page_io::List;
use set_publisher::{Desk, Notice, SeatStop, Seats, Viewer};
use std::alloc::Global;

/// So many viewers that have seen the desk's list as it is. `Failed` comes only where the count of
/// faults of the seats rose.
pub fn take_seats<V: Drop + Send + Sync, S: Notice<V>, Q: Seats>(
    alloc: Global,
    seats: &mut Q,
    desk: &mut Desk<V, S>,
    count: u32,
) -> Result<List<Viewer<V, S>>, SeatStop>
    ensures viewers { IfOk result (SeatsAll desk.old count) }
    ensures kept { desk.new ≡ desk.old }
    ensures later { Q.faults seats.old ≤ Q.faults seats.new }
    ensures cause { IsErrOf result Failed → Rose (Q.faults seats.old) (Q.faults seats.new) }
{
    let Ok(mut viewers) = Vec::with_capacity(alloc, count as usize) else {
        return Err(SeatStop::Memory);
    };
    for _ in 0..count {
        match seats.seat(desk) {
            Ok(viewer) => {
                let Ok(()) = viewers.push(viewer) else {
                    unreachable!()
                };
            }
            Err(stop) => return Err(stop),
        }
    }
    Ok(List::from(viewers))
}
