// The workers, one at each door.
ghost use Rattle.std.specs.Prelude.{◌≡◌, ◌≤◌, [], length, map, reverse, vec_len, vec_capacity};
ghost use Rattle.page_io.specs.Causes.{Rose};
ghost use Rattle.page_server.specs.Answering.{AnswersBySet};
ghost use Rattle.page_spawn.specs.Gates.{Each};
ghost use Rattle.page_serve.specs.Workers.{AreWorkersAt, RunWorkersAnswers, SpawnCause};

use crate::stop::ServeStop;
use page_datum::Pages;
use page_io::{Folder, List};
use page_net::Door;
use page_office::{Office, OfficeClerk};
use page_spawn::{SpawnStop, Spawner};
use page_worker::{AtDoor, Ended, PageWorker};
use set_publisher::{Named, Told, Viewer};
use std::alloc::Global;
use std::sync::Wait;

/// A worker whose clerk asks an office.
pub type OfficeWorker<'r, D, F, P, J, R> = PageWorker<
    'r,
    D,
    P,
    Told<P>,
    OfficeClerk<'r, F, P, Told<P>, J>,
    J,
    R,
>;

/// Why no worker has run, and the doors of all of them, as they were.
#[derive(Drop)]
pub struct NotRun<D> {
    pub stop: ServeStop,
    pub doors: List<D>,
}

/// Has a worker at each door serve at most so many links, and gives their ends, in order. Or no
/// worker has run, and the doors come back.
pub fn run_workers<
    D: Door + Send + Drop,
    F: Folder + Send,
    P: Pages + Drop + Send + Sync,
    J: Named + Send + Sync,
    T: Spawner,
    R: Wait + Sync,
>(
    alloc: Global,
    rt: &R,
    office: &Office<F, P, Told<P>, J>,
    doors: List<D>,
    viewers: List<Viewer<P, Told<P>>>,
    links: u64,
    spawn: &mut T,
) -> Result<List<Ended<D>>, NotRun<D>>
where
    D::Link: Send,
    P::Refused: Send,
    requires same { length viewers ≡ length doors }
    requires desk { Each (λ viewer. viewer.book ≡ J.desk) viewers }
    ensures ends { RunWorkersAnswers (AnswersBySet P.execution P.made_of P.is_execution P.is_sound)
        D.told D.faults D.Link.left D.Link.taken D.Link.faults doors viewers links result }
    ensures later { T.faults spawn.old ≤ T.faults spawn.new }
    ensures cause { SpawnCause (Rose (T.faults spawn.old) (T.faults spawn.new)) result }
{
    let mut doors = doors.into_vec();
    let Ok(mut workers) = Vec::with_capacity(alloc, doors.len()) else {
        return Err(NotRun {
            stop: ServeStop::Memory,
            doors: List::from(doors),
        });
    };
    put_workers(
        alloc,
        rt,
        office,
        &mut doors,
        viewers.into_vec(),
        links,
        &mut workers,
    );
    match spawn.run(alloc, List::from(workers)) {
        Ok(ends) => Ok(ends),
        Err(SpawnStop::Failed(back)) => Err(NotRun {
            stop: ServeStop::Spawn,
            doors: leave_all(back, doors),
        }),
        Err(SpawnStop::Memory(back)) => Err(NotRun {
            stop: ServeStop::Memory,
            doors: leave_all(back, doors),
        }),
    }
}

// Puts a worker for each door into a list with room for them, in the doors' order.
fn put_workers<'r, D: Door + Drop, F: Folder, P: Pages + Drop, J: Named, R: Wait + Sync>(
    alloc: Global,
    rt: &'r R,
    office: &'r Office<F, P, Told<P>, J>,
    doors: &mut Vec<D>,
    mut viewers: Vec<Viewer<P, Told<P>>>,
    links: u64,
    workers: &mut Vec<OfficeWorker<'r, D, F, P, J, R>>,
)
    requires none { workers.old.items ≡ [] }
    requires room { vec_len doors.old ≤ vec_capacity workers.old }
    requires same { vec_len viewers ≡ vec_len doors.old }
    requires desk { Each (λ viewer. viewer.book ≡ J.desk) viewers.items }
    ensures workers { AreWorkersAt doors.old.items viewers.items links workers.new.items }
    ensures left { doors.new.items ≡ [] }
    ensures room { vec_len doors.old ≤ vec_capacity doors.new }
{
    turn_round(doors);
    turn_round(&mut viewers);
    while let Some(door) = doors.pop() {
        let Some(viewer) = viewers.pop() else {
            unreachable!()
        };
        let clerk = OfficeClerk::new(office);
        let worker = PageWorker::new(alloc, rt, door, viewer, clerk, links);
        let Ok(()) = workers.push(worker) else {
            unreachable!()
        };
    }
}

// Puts the values of a list in the opposite order.
fn turn_round<T>(values: &mut Vec<T>)
    ensures items { values.new.items ≡ reverse values.old.items }
    ensures len { vec_len values.new ≡ vec_len values.old }
    ensures capacity { vec_capacity values.new ≡ vec_capacity values.old }
{
    values.as_mut_slice().reverse();
}

// The doors of workers that have not run, put into a list with room for them, in order.
fn leave_all<W: AtDoor + Drop>(workers: List<W>, mut doors: Vec<W::Door>) -> List<W::Door>
where
    W::Door: Drop,
    requires none { doors.items ≡ [] }
    requires room { length workers ≤ vec_capacity doors }
    ensures { result ≡ map W.door workers }
{
    let mut workers = workers.into_vec();
    workers.as_mut_slice().reverse();
    while let Some(worker) = workers.pop() {
        let Ok(()) = doors.push(worker.leave()) else {
            unreachable!()
        };
    }
    List::from(doors)
}
