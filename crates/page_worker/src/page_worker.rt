ghost use Rattle.std.specs.Prelude.{◌≡◌, ◌≤◌};
ghost use Rattle.page_server.specs.Answering.{AnswersBySet};
ghost use Rattle.page_net.specs.Doors.{HasLinkOut};
ghost use Rattle.page_worker.specs.DoorWork.{ServesDoor};
ghost use Rattle.page_worker.specs.DoorSteps.{ServesNext, ServesThis};
ghost use Rattle.page_worker.specs.LinksServed.{carried};

use crate::at_door::AtDoor;
use crate::ended::Ended;
use crate::work_end::WorkEnd;
use page_datum::Pages;
use page_io::Failed;
use page_net::{Came, Door};
use page_office::Clerk;
use page_server::{LinkEnd, LinkRoom, serve_link};
use page_spawn::Worker;
use set_publisher::{Named, Notice, Viewer};
use std::alloc::Global;
use std::marker::{Model, PhantomData};
use std::sync::Wait;

/// A worker at a door: it owns the door, a viewer of the desk that `J` names, and a clerk of that
/// desk. Contracts see these, what the viewer has seen in its place, and the most links that it
/// serves (`DoorWorker` of `specs/DoorWorkers.antt`).
#[derive(Drop)]
pub struct PageWorker<
    'r,
    D: Door,
    P: Pages + Drop,
    S: Notice<P>,
    C: Clerk<P, S, J>,
    J: Named,
    R: Wait,
> {
    alloc: Global,
    rt: &'r R,
    door: D,
    viewer: Viewer<P, S>,
    clerk: C,
    links: u64,
    of: PhantomData<J>,
}

impl<'r, D: Door, P: Pages + Drop, S: Notice<P>, C: Clerk<P, S, J>, J: Named, R: Wait> Model
    for PageWorker<'r, D, P, S, C, J, R> {
    ghost use Rattle.std.specs.Prelude.{◌≡◌};
    ghost use Rattle.page_worker.specs.DoorWorkers.{DoorWorker, door_worker_code};

    ghost Value = { DoorWorker P D C };

    ghost coded = { door_worker_code P.code D.code C.code };

    ghost view = { λ w. record { door = w.door; viewer = w.viewer; clerk = w.clerk; links = w.links } };

    ghost invariant = { λ w. w.viewer.book ≡ J.desk };
}

impl<'r, D: Door, P: Pages + Drop, S: Notice<P>, C: Clerk<P, S, J>, J: Named, R: Wait> PageWorker<
    'r,
    D,
    P,
    S,
    C,
    J,
    R,
> {
    /// A worker that serves at most so many links. It keeps `rt` and `alloc` for its work, and does
    /// not allocate here.
    pub fn new(
        alloc: Global,
        rt: &'r R,
        door: D,
        viewer: Viewer<P, S>,
        clerk: C,
        links: u64,
    ) -> PageWorker<'r, D, P, S, C, J, R>
        requires { viewer.book ≡ J.desk }
        ensures { result ≡ record { door = door; viewer = viewer; clerk = clerk; links = links } }
    {
        PageWorker {
            alloc,
            rt,
            door,
            viewer,
            clerk,
            links,
            of: PhantomData,
        }
    }

    /// Serves the links that come through the door, one after another, and gives each back once it
    /// was served. It ends once so many links were served, where none is to come, or where the
    /// door failed. It may wait, for clients and for the clerk.
    pub fn serve_door(&mut self) -> WorkEnd
        ensures { ServesDoor (AnswersBySet P.execution P.made_of P.is_execution P.is_sound)
            D.told D.faults D.Link.left D.Link.taken D.Link.faults C.given self.old self.new result }
    {
        let mut room = LinkRoom::new(self.alloc);
        let mut end = WorkEnd::new();
        while end.links < self.links {
            let (door, viewer, clerk) = (&mut self.door, &mut self.viewer, &mut self.clerk);
            match serve_next(self.alloc, self.rt, door, viewer, clerk, &mut room) {
                Ok(Some(link)) => end.add(link),
                Ok(None) => return end,
                Err(Failed) => return end.failed(),
            }
        }
        end
    }
}

// Serves the next link that comes through the door, and gives it back. Nothing where none is to
// come.
fn serve_next<D: Door, P: Pages + Drop, S: Notice<P>, C: Clerk<P, S, J>, J: Named, R: Wait>(
    alloc: Global,
    rt: &R,
    door: &mut D,
    viewer: &mut Viewer<P, S>,
    clerk: &mut C,
    room: &mut LinkRoom,
) -> Result<Option<LinkEnd>, Failed>
    requires { viewer.old.book ≡ J.desk }
    ensures next { ServesNext (AnswersBySet P.execution P.made_of P.is_execution P.is_sound)
        D.told D.faults D.Link.left D.Link.taken D.Link.faults door.old door.new
        (carried viewer.old (C.given clerk.old)) (carried viewer.new (C.given clerk.new)) result }
    ensures desk { viewer.new.book ≡ viewer.old.book }
{
    match door.accept() {
        Ok(Came::Link(link)) => Ok(Some(serve(alloc, rt, door, viewer, clerk, room, link))),
        Ok(Came::Closed) => Ok(None),
        Err(Failed) => Err(Failed),
    }
}

// Serves this link, which came through the door, and gives it back.
fn serve<D: Door, P: Pages + Drop, S: Notice<P>, C: Clerk<P, S, J>, J: Named, R: Wait>(
    alloc: Global,
    rt: &R,
    door: &mut D,
    viewer: &mut Viewer<P, S>,
    clerk: &mut C,
    room: &mut LinkRoom,
    mut link: D::Link,
) -> LinkEnd
    requires desk { viewer.old.book ≡ J.desk }
    requires out { HasLinkOut (D.told door.old) }
    ensures served { ServesThis (AnswersBySet P.execution P.made_of P.is_execution P.is_sound)
        D.told D.faults D.Link.left D.Link.taken D.Link.faults door.old door.new
        (carried viewer.old (C.given clerk.old)) (carried viewer.new (C.given clerk.new)) link result }
    ensures desk { viewer.new.book ≡ viewer.old.book }
{
    let end = serve_link(alloc, rt, viewer, clerk, &mut link, room);
    door.done(link);
    end
}

impl<'r, D: Door, P: Pages + Drop, S: Notice<P>, C: Clerk<P, S, J> + Drop, J: Named, R: Wait> AtDoor
    for PageWorker<'r, D, P, S, C, J, R> {
    type Door = D;

    ghost door = { λ worker. worker.door };

    fn leave(self) -> D {
        self.door
    }
}

impl<
    'r,
    D: Door + Send + Drop,
    P: Pages + Drop,
    S: Notice<P>,
    C: Clerk<P, S, J> + Drop,
    J: Named,
    R: Wait,
> Worker for PageWorker<'r, D, P, S, C, J, R> {
    type End = Ended<D>;

    ghost use Rattle.page_server.specs.Answering.{AnswersBySet};
    ghost use Rattle.page_worker.specs.DoorWork.{EndsWork};

    // `serve_door` was done, and its summary and the door are left.
    ghost fulfils = { EndsWork (AnswersBySet P.execution P.made_of P.is_execution P.is_sound)
        D.told D.faults D.Link.left D.Link.taken D.Link.faults C.given };

    fn work(mut self) -> Ended<D> {
        let end = self.serve_door();
        Ended {
            end,
            door: self.door,
        }
    }
}
