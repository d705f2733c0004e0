ghost use Rattle.std.specs.Prelude.{◌≡◌, ◌≤◌, ◌<◌, ◌^◌, ◌∷◌, [], length, List, Option, IfOk};
ghost use Rattle.page_io.specs.Causes.{Rose};
ghost use Rattle.page_net.specs.Nets.{NetTold};
ghost use Rattle.page_net.specs.Tellings.{BothTold};
ghost use Rattle.page_server.specs.Answering.{AnswersBySet};
ghost use Rattle.page_spawn.specs.Gates.{Each};
ghost use Rattle.page_serve.specs.DoorMoves.{AreFreshDoors, HaveDoorsOut, MovesDoors};
ghost use Rattle.page_serve.specs.ServeAnswers.{IsDoneOrOutOfMemory, PlacesAnswers, ServeAnswers, ServeCause};

use crate::doors::{close_doors, take_doors};
use crate::ends::report;
use crate::seating::take_seats;
use crate::stop::ServeStop;
use crate::workers::run_workers;
use page_datum::Pages;
use page_io::{Folder, IoStop, List, Memory, Sink, Text};
use page_net::{Door, Net};
use page_office::{Back, Office};
use page_spawn::Spawner;
use set_publisher::{Desk, Named, SeatStop, Seats, Told, Viewer};
use std::alloc::Global;
use std::marker::Brand;
use std::sync::Wait;

/// Serves a first set of pages, and those that reloads of a directory publish after it. So many
/// workers, each at a door of its own, serve at most so many links each; then a line is written for
/// each worker. The folder comes back, of which nothing is known once workers could have reloaded.
///
/// It stops where a door is not given, or a place for a viewer, or where the workers cannot be run:
/// then all doors went back, and nothing was written. `Net` is also the answer where a worker's door
/// failed; then all lines were written. `Write` comes where the output failed, and it has got a
/// prefix of the lines. It may wait, for clients and for one another's reloads.
pub fn serve<
    P: Pages + Drop + Send + Sync,
    F: Folder + Send,
    O: Sink,
    N: Net,
    T: Spawner,
    Q: Seats,
    R: Wait + Sync,
>(
    alloc: Global,
    rt: &R,
    first: P,
    folder: F,
    dir: Text,
    address: &str,
    workers: u32,
    links: u64,
    out: &mut O,
    net: &mut N,
    spawn: &mut T,
    seats: &mut Q,
) -> (Result<(), ServeStop>, F)
where
    N::Door: Send + Drop,
    <N::Door as Door>::Link: Send,
    P::Refused: Send,
    ensures answers { ServeAnswers N.Door.told N.Door.faults
        (AnswersBySet P.execution P.made_of P.is_execution P.is_sound)
        N.Door.Link.left N.Door.Link.taken N.Door.Link.faults (first ∷ []) workers links
        (N.told net.old) (N.told net.new) (O.taken out.old) (O.taken out.new)
        (result.1 ≡ folder) result.0 }
    // Each stop but out of memory comes only where a count of faults rose in this call: that of the
    // net, the spawner, the seats or the output.
    ensures cause { ServeCause (Rose (N.faults net.old) (N.faults net.new))
        (Rose (T.faults spawn.old) (T.faults spawn.new))
        (Rose (Q.faults seats.old) (Q.faults seats.new))
        (Rose (O.faults out.old) (O.faults out.new)) result.0 }
    ensures complete { (Rose (N.faults net.old) (N.faults net.new) → ⊥)
        → (Rose (T.faults spawn.old) (T.faults spawn.new) → ⊥)
        → (Rose (Q.faults seats.old) (Q.faults seats.new) → ⊥)
        → (Rose (O.faults out.old) (O.faults out.new) → ⊥) → IsDoneOrOutOfMemory result.0 }
    ensures net_later { N.faults net.old ≤ N.faults net.new }
    ensures spawn_later { T.faults spawn.old ≤ T.faults spawn.new }
    ensures seats_later { Q.faults seats.old ≤ Q.faults seats.new }
    ensures out_later { O.faults out.old ≤ O.faults out.new }
{
    match Desk::open(alloc, rt, first) {
        Ok(desk) => serve_desk(
            alloc, rt, desk, folder, dir, address, workers, links, out, net, spawn, seats,
        ),
        Err(Memory) => (Err(ServeStop::Memory), folder),
    }
}

// Serves at a desk.
fn serve_desk<
    P: Pages + Drop + Send + Sync,
    F: Folder + Send,
    O: Sink,
    N: Net,
    T: Spawner,
    Q: Seats,
    R: Wait + Sync,
>(
    alloc: Global,
    rt: &R,
    mut desk: Desk<P, Told<P>>,
    folder: F,
    dir: Text,
    address: &str,
    workers: u32,
    links: u64,
    out: &mut O,
    net: &mut N,
    spawn: &mut T,
    seats: &mut Q,
) -> (Result<(), ServeStop>, F)
where
    N::Door: Send + Drop,
    <N::Door as Door>::Link: Send,
    P::Refused: Send,
    ensures answers { ServeAnswers N.Door.told N.Door.faults
        (AnswersBySet P.execution P.made_of P.is_execution P.is_sound)
        N.Door.Link.left N.Door.Link.taken N.Door.Link.faults desk.sets workers links
        (N.told net.old) (N.told net.new) (O.taken out.old) (O.taken out.new)
        (result.1 ≡ folder) result.0 }
    ensures cause { ServeCause (Rose (N.faults net.old) (N.faults net.new))
        (Rose (T.faults spawn.old) (T.faults spawn.new))
        (Rose (Q.faults seats.old) (Q.faults seats.new))
        (Rose (O.faults out.old) (O.faults out.new)) result.0 }
    ensures net_later { N.faults net.old ≤ N.faults net.new }
    ensures spawn_later { T.faults spawn.old ≤ T.faults spawn.new }
    ensures seats_later { Q.faults seats.old ≤ Q.faults seats.new }
    ensures out_later { O.faults out.old ≤ O.faults out.new }
{
    let (doors, viewers) = match take_places(alloc, &mut desk, address, workers, net, seats) {
        Ok(places) => places,
        Err(stop) => {
            desk.close(rt);
            return (Err(stop), folder);
        }
    };
    serve_named::<Brand, P, F, O, N, T, R>(
        alloc, rt, desk, folder, dir, doors, viewers, links, out, net, spawn,
    )
}

// A door and a viewer for each of so many workers, or no doors.
fn take_places<P: Drop + Send + Sync, N: Net, Q: Seats>(
    alloc: Global,
    desk: &mut Desk<P, Told<P>>,
    address: &str,
    workers: u32,
    net: &mut N,
    seats: &mut Q,
) -> Result<(List<N::Door>, List<Viewer<P, Told<P>>>), ServeStop>
where
    N::Door: Drop,
    ensures places { PlacesAnswers N.Door.told N.Door.faults desk.old workers
        (N.told net.old) (N.told net.new) result }
    ensures kept { desk.new ≡ desk.old }
    ensures out { IfOk result (λ places. HaveDoorsOut (length places.0) (N.told net.new)) }
    ensures cause { ServeCause (Rose (N.faults net.old) (N.faults net.new)) ⊥
        (Rose (Q.faults seats.old) (Q.faults seats.new)) ⊥ result }
    ensures net_later { N.faults net.old ≤ N.faults net.new }
    ensures seats_later { Q.faults seats.old ≤ Q.faults seats.new }
{
    let doors = match take_doors(alloc, net, address, workers) {
        Ok(doors) => doors,
        Err(IoStop::Failed) => return Err(ServeStop::Net),
        Err(IoStop::Memory) => return Err(ServeStop::Memory),
    };
    match take_seats(alloc, seats, desk, workers) {
        Ok(viewers) => Ok((doors, viewers)),
        Err(SeatStop::Failed) => {
            close_doors(net, doors);
            Err(ServeStop::Seat)
        }
        Err(SeatStop::Memory) => {
            close_doors(net, doors);
            Err(ServeStop::Memory)
        }
    }
}

// Serves at the desk that `J` names, at doors that the net gave before and with viewers of the desk.
fn serve_named<
    J: Named + Send + Sync,
    P: Pages + Drop + Send + Sync,
    F: Folder + Send,
    O: Sink,
    N: Net,
    T: Spawner,
    R: Wait + Sync,
>(
    alloc: Global,
    rt: &R,
    desk: Desk<P, Told<P>>,
    folder: F,
    dir: Text,
    doors: List<N::Door>,
    viewers: List<Viewer<P, Told<P>>>,
    links: u64,
    out: &mut O,
    net: &mut N,
    spawn: &mut T,
) -> (Result<(), ServeStop>, F)
where
    N::Door: Send + Drop,
    <N::Door as Door>::Link: Send,
    P::Refused: Send,
    requires fresh { AreFreshDoors N.Door.faults N.Door.told doors }
    requires out { HaveDoorsOut (length doors) (N.told net.old) }
    requires count { length doors < 2 ^ 32 }
    requires same { length viewers ≡ length doors }
    requires desk { desk.book ≡ J.desk }
    requires viewers { Each (λ viewer. viewer.book ≡ J.desk) viewers }
    ensures answers { (sets : List P) (before : Option (NetTold N.Door))
        → Each (λ viewer. viewer.sets ≡ sets) viewers
        → BothTold before (N.told net.old) (λ old now. MovesDoors old now (length doors) [])
        → ServeAnswers N.Door.told N.Door.faults
        (AnswersBySet P.execution P.made_of P.is_execution P.is_sound)
        N.Door.Link.left N.Door.Link.taken N.Door.Link.faults sets (length doors) links
        before (N.told net.new) (O.taken out.old) (O.taken out.new) ⊥ result.0 }
    ensures cause { ServeCause (Rose (N.faults net.old) (N.faults net.new))
        (Rose (T.faults spawn.old) (T.faults spawn.new)) ⊥
        (Rose (O.faults out.old) (O.faults out.new)) result.0 }
    ensures net_later { N.faults net.old ≤ N.faults net.new }
    ensures spawn_later { T.faults spawn.old ≤ T.faults spawn.new }
    ensures out_later { O.faults out.old ≤ O.faults out.new }
{
    let back: Back<F, P, Told<P>, J> = Back::new(desk, folder, dir);
    let office = Office::new(back);
    match run_workers(alloc, rt, &office, doors, viewers, links, spawn) {
        Ok(ends) => (report(alloc, ends, net, out), office.close(rt)),
        Err(not_run) => {
            close_doors(net, not_run.doors);
            (Err(not_run.stop), office.close(rt))
        }
    }
}
