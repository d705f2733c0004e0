ghost use Rattle.std.specs.Prelude.{◌≡◌};

use crate::at_door::AtDoor;
use crate::ended::Ended;
use crate::page_worker::PageWorker;
use crate::work_end::WorkEnd;
use page_datum::{Datum, Files, PageEnd, PageStop, Pages, Shown};
use page_io::{Bytes, List, MemFolder, Memory, Sink, Text};
use page_net::{MemDoor, MemLink};
use page_office::{Back, Office, OfficeClerk};
use page_spawn::Worker;
use set_publisher::{Desk, Named, Told, Viewer};
use std::alloc::Global;
use std::marker::Brand;
use std::sync::Wait;
use std::test::Fail;

// A set without pages.
#[derive(Drop)]
struct BareSet {
    files: Files,
}

// No files are refused.
#[derive(Debug, Drop)]
struct NothingRefused;

impl Shown for NothingRefused {
    ghost use Rattle.std.specs.Prelude.{[], false};

    ghost text = { λ _. [] };

    ghost is_memory = { λ _. false };

    fn lines(&self, _out: &mut Text) -> Result<(), Memory> {
        Ok(())
    }

    fn memory(&self) -> bool {
        false
    }
}

impl Pages for BareSet {
    type Refused = NothingRefused;

    ghost use Rattle.std.specs.Prelude.{◌≡◌, []};
    ghost use Rattle.page_datum.specs.Execution.{no_root};

    ghost made_of = { λ set. set.files };

    ghost refuses = { λ _. ⊥ };

    ghost execution = { λ _ _ _. record { bytes = []; steps = 0; ending = no_root } };

    ghost is_execution = { λ _ _ _ execution. execution.ending ≡ no_root };

    ghost is_sound = { λ _ _ _ _. ⊥ };

    fn make(_alloc: Global, files: Files) -> Result<BareSet, NothingRefused> {
        Ok(BareSet { files })
    }

    fn page<K: Sink>(
        &self,
        _alloc: Global,
        _root: &str,
        _datum: &Datum,
        _out: &mut K,
    ) -> Result<PageEnd, PageStop> {
        Err(PageStop::NoTemplate)
    }
}

type BareDesk = Desk<BareSet, Told<BareSet>>;

type BareViewer = Viewer<BareSet, Told<BareSet>>;

type FolderClerk<'o, J> = OfficeClerk<'o, MemFolder, BareSet, Told<BareSet>, J>;

type MemoryDoor = MemDoor<MemLink>;

const ASK: &[u8] = b"GET /set HTTP/1.1\r\nHost: x\r\n\r\n";

const REPLY: &[u8] = b"HTTP/1.1 200 OK\r\nContent-Type: text/plain; charset=utf-8\r\n\
    Content-Length: 6\r\nSet-Number: 1\r\nConnection: keep-alive\r\n\r\nset 1\n";

// A link on which the number is asked so often, and of which the call of this number fails.
fn link_of(alloc: Global, asks: u8, fail: u64) -> Result<MemLink, Memory> {
    let mut bytes = Bytes::new(alloc);
    for _ in 0..asks {
        bytes.push_slice(ASK)?;
    }
    let mut calls = List::new(alloc);
    calls.push(fail)?;
    MemLink::new(alloc, bytes, 1000, 100, calls)
}

// A door through which these links come; its call of this number fails.
fn door_of(alloc: Global, cases: &[(u8, u64)], fail: u64) -> Result<MemoryDoor, Memory> {
    let mut links = List::new(alloc);
    for (asks, fails) in cases {
        links.push(link_of(alloc, *asks, *fails)?)?;
    }
    let mut calls = List::new(alloc);
    calls.push(fail)?;
    MemDoor::new(alloc, links, calls)
}

// Whether the link got so many replies.
fn has_replies(link: &MemLink, replies: usize) -> bool {
    let taken = link.taken();
    Some(taken.len()) == replies.checked_mul(REPLY.len())
        && taken.chunks(REPLY.len()).all(|chunk| chunk == REPLY)
}

// Does the work of a worker, by the trait alone.
fn do_work<W: Worker>(worker: W) -> W::End
    ensures { W.fulfils worker result }
{
    worker.work()
}

// A worker's door, by the trait alone.
fn door_left<W: AtDoor>(worker: W) -> W::Door
    ensures { result ≡ W.door worker }
{
    worker.leave()
}

// The office of a desk, whose folder is empty.
fn office_of<J: Named>(
    alloc: Global,
    desk: BareDesk,
) -> Office<MemFolder, BareSet, Told<BareSet>, J>
    requires { desk.book ≡ J.desk }
{
    let folder = MemFolder::new(List::new(alloc), List::new(alloc));
    Office::new(Back::new(desk, folder, Text::new(alloc)))
}

// How a worker ends at this door, of which it serves at most so many links.
fn end_at<J: Named, R: Wait>(
    rt: &R,
    alloc: Global,
    desk: BareDesk,
    door: MemoryDoor,
    viewer: BareViewer,
    links: u64,
) -> Ended<MemoryDoor>
    requires desk { desk.book ≡ J.desk }
    requires viewer { viewer.book ≡ J.desk }
{
    let office: Office<MemFolder, BareSet, Told<BareSet>, J> = office_of(alloc, desk);
    let clerk = OfficeClerk::new(&office);
    let worker: PageWorker<MemoryDoor, BareSet, Told<BareSet>, FolderClerk<J>, J, R> =
        PageWorker::new(alloc, rt, door, viewer, clerk, links);
    let ended = do_work(worker);
    let _folder = office.close(rt);
    ended
}

// The door of a worker that has not worked.
fn door_at<J: Named, R: Wait>(
    rt: &R,
    alloc: Global,
    desk: BareDesk,
    door: MemoryDoor,
    viewer: BareViewer,
) -> MemoryDoor
    requires desk { desk.book ≡ J.desk }
    requires viewer { viewer.book ≡ J.desk }
    ensures { result ≡ door }
{
    let office: Office<MemFolder, BareSet, Told<BareSet>, J> = office_of(alloc, desk);
    let clerk = OfficeClerk::new(&office);
    let worker: PageWorker<MemoryDoor, BareSet, Told<BareSet>, FolderClerk<J>, J, R> =
        PageWorker::new(alloc, rt, door, viewer, clerk, 1);
    let door = door_left(worker);
    let _folder = office.close(rt);
    door
}

// A desk with its first set.
fn desk_of<R: Wait>(rt: &R, alloc: Global) -> Result<BareDesk, Memory> {
    let dir = Text::copy_of(alloc, "site")?;
    let list = List::new(alloc);
    Desk::open(
        alloc,
        rt,
        BareSet {
            files: Files { dir, list },
        },
    )
}

// Serves a door of these links, and says whether the worker ends so and each link that is back has so
// many replies.
fn serves<R: Wait>(
    rt: &R,
    alloc: Global,
    cases: &[(u8, u64)],
    fail: u64,
    links: u64,
    end: WorkEnd,
    replies: &[usize],
) -> Result<bool, Memory> {
    let door = door_of(alloc, cases, fail)?;
    let mut desk = desk_of(rt, alloc)?;
    let Ok(viewer) = desk.seat() else {
        desk.close(rt);
        return Ok(false);
    };
    let ended = end_at::<Brand, R>(rt, alloc, desk, door, viewer, links);
    let back = ended.door.back();
    let mut good = ended.end == end && back.len() == replies.len();
    for (link, count) in back.iter().zip(replies) {
        good &= has_replies(link, *count);
    }
    Ok(good)
}

fn end_of(links: u64, requests: u128, last: u64, door_fault: bool) -> WorkEnd {
    WorkEnd {
        links,
        requests,
        last,
        door_fault,
    }
}

// The second link fails at its first read, and the third one is served all the same; on the fourth
// nothing is asked.
#[test]
fn a_worker_goes_on_after_a_link_that_failed(rt: HostRuntime) -> Result<(), Fail> {
    let cases = [(2, 0), (1, 1), (1, 0), (0, 0)];
    let end = end_of(4, 3, 1, false);
    let good = serves(&rt, rt.alloc(), &cases, 0, u64::MAX, end, &[2, 0, 1, 0])?;
    assert!(rt; good);
    Ok(())
}

#[test]
fn no_more_links_are_served_than_were_asked_for(rt: HostRuntime) -> Result<(), Fail> {
    let cases = [(1, 0), (2, 0), (1, 0)];
    let good = serves(
        &rt,
        rt.alloc(),
        &cases,
        0,
        2,
        end_of(2, 3, 1, false),
        &[1, 2],
    )?;
    assert!(rt; good);
    let none = serves(&rt, rt.alloc(), &cases, 0, 0, end_of(0, 0, 0, false), &[])?;
    assert!(rt; none);
    Ok(())
}

#[test]
fn the_work_ends_where_the_door_fails(rt: HostRuntime) -> Result<(), Fail> {
    let cases = [(1, 0), (2, 0)];
    let good = serves(&rt, rt.alloc(), &cases, 2, 9, end_of(1, 1, 1, true), &[1])?;
    assert!(rt; good);
    Ok(())
}

#[test]
fn a_worker_leaves_its_door_as_it_was(rt: HostRuntime) -> Result<(), Fail> {
    let door = door_of(rt.alloc(), &[(1, 0)], 0)?;
    let mut desk = desk_of(&rt, rt.alloc())?;
    let Ok(viewer) = desk.seat() else {
        desk.close(&rt);
        return Ok(());
    };
    let door = door_at::<Brand, HostRuntime>(&rt, rt.alloc(), desk, door, viewer);
    assert!(rt; door.back().is_empty());
    Ok(())
}
