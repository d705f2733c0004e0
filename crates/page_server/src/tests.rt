ghost use Rattle.std.specs.Prelude.{◌≡◌, ◌++◌, OnOk};
ghost use Rattle.page_datum.specs.Lines.{HasPrefix};

mod counting;

use crate::end::{LinkEnd, LinkWhy};
use crate::link_room::LinkRoom;
use crate::serve::serve_link;
use page_datum::{Datum, Files, NamedFile, PageEnd, PageStop, Pages, Shown};
use page_io::{Bytes, Failed, List, MemFile, MemFolder, Memory, Sink, Text, write_all};
use page_net::MemLink;
use page_office::{Back, Clerk, Office, OfficeClerk};
use set_publisher::{Desk, Named, Told, Viewer};
use std::alloc::Global;
use std::marker::Brand;
use std::sync::Wait;
use std::test::Fail;

// A set whose pages are all the same; one that is made of no file finds no memory for them.
#[derive(Drop)]
struct GreetingSet {
    files: Files,
}

// The files are several.
#[derive(Debug, Drop)]
struct SeveralFiles;

// Appends a line.
fn push_line(out: &mut Text, line: &str) -> Result<(), Memory>
    ensures ok { OnOk result (out.new ≡ out.old ++ line.now) }
    ensures prefix { HasPrefix out.old out.new line.now }
{
    out.push_str(line)
}

impl Shown for SeveralFiles {
    ghost use Rattle.std.specs.Prelude.{codes, false};

    ghost text = { λ _. codes "refused SeveralFiles\n" };

    ghost is_memory = { λ _. false };

    fn lines(&self, out: &mut Text) -> Result<(), Memory> {
        push_line(out, "refused SeveralFiles\n")
    }

    fn memory(&self) -> bool {
        false
    }
}

impl Pages for GreetingSet {
    type Refused = SeveralFiles;

    ghost use Rattle.std.specs.Prelude.{◌≡◌, ◌<◌, codes, length};
    ghost use Rattle.page_datum.specs.Execution.{done};

    ghost made_of = { λ set. set.files };

    ghost refuses = { λ files. 1 < length files.list };

    ghost execution = { λ _ _ _. record { bytes = codes "<p>hi</p>"; steps = 1; ending = done } };

    ghost is_execution = { λ _ _ _ execution. execution.ending ≡ done };

    ghost is_sound = { λ _ _ _ page. page ≡ codes "<p>hi</p>" };

    fn make(_alloc: Global, files: Files) -> Result<GreetingSet, SeveralFiles> {
        if files.list.as_slice().len() <= 1 {
            Ok(GreetingSet { files })
        } else {
            Err(SeveralFiles)
        }
    }

    fn page<K: Sink>(
        &self,
        _alloc: Global,
        _root: &str,
        _datum: &Datum,
        out: &mut K,
    ) -> Result<PageEnd, PageStop> {
        if self.files.list.as_slice().is_empty() {
            return Err(PageStop::Memory);
        }
        match write_all(out, b"<p>hi</p>") {
            Ok(()) => Ok(PageEnd { bytes: 9, steps: 1 }),
            Err(Failed) => Err(PageStop::SinkStop),
        }
    }
}

type GreetingDesk = Desk<GreetingSet, Told<GreetingSet>>;

type GreetingViewer = Viewer<GreetingSet, Told<GreetingSet>>;

// A set of so many files.
fn set_of(alloc: Global, count: u8) -> Result<GreetingSet, Memory> {
    let mut list = List::new(alloc);
    for _ in 0..count {
        let name = Text::copy_of(alloc, "a.html")?;
        let bytes = Bytes::new(alloc);
        list.push(NamedFile { name, bytes })?;
    }
    let dir = Text::copy_of(alloc, "site")?;
    Ok(GreetingSet {
        files: Files { dir, list },
    })
}

// A folder with so many template files in the directory `site`.
fn folder_of(alloc: Global, count: u8) -> Result<MemFolder, Memory> {
    let mut files = List::new(alloc);
    for at in 0..count {
        let mut name = Text::copy_of(alloc, "a")?;
        for _ in 0..at {
            name.push_str("a")?;
        }
        name.push_str(".html")?;
        let dir = Text::copy_of(alloc, "site")?;
        let bytes = Bytes::new(alloc);
        files.push(MemFile { dir, name, bytes })?;
    }
    Ok(MemFolder::new(files, List::new(alloc)))
}

// A link: its bytes, how many it moves at a time, which of its calls fails, how it ends, and what
// is written to it.
#[derive(Clone, Copy)]
struct Case<'b> {
    asked: &'b [u8],
    step: u64,
    fail: u64,
    end: LinkEnd,
    written: &'b [u8],
}

fn link_of(alloc: Global, case: Case<'_>) -> Result<MemLink, Memory> {
    let mut calls = List::new(alloc);
    calls.push(case.fail)?;
    let bytes = Bytes::copy_of(alloc, case.asked)?;
    MemLink::new(alloc, bytes, 2_000_000, case.step.max(1), calls)
}

// Serves a link, and says whether it ends so, and so much was written.
fn is_served<C: Clerk<GreetingSet, Told<GreetingSet>, J>, J: Named, R: Wait + Sync>(
    rt: &R,
    alloc: Global,
    clerk: &mut C,
    viewer: &mut GreetingViewer,
    room: &mut LinkRoom,
    case: Case<'_>,
) -> bool
    requires { viewer.old.book ≡ J.desk }
    ensures { viewer.new.book ≡ viewer.old.book }
{
    match link_of(alloc, case) {
        Ok(mut link) => {
            let end = serve_link(alloc, rt, viewer, clerk, &mut link, room);
            end == case.end && link.taken() == case.written
        }
        Err(Memory) => false,
    }
}

// Serves links one after another, with one clerk, one viewer and one room.
fn are_served<J: Named, R: Wait + Sync>(
    rt: &R,
    alloc: Global,
    desk: GreetingDesk,
    folder: MemFolder,
    dir: Text,
    mut viewer: GreetingViewer,
    cases: &[Case<'_>],
) -> bool
    requires desk { desk.book ≡ J.desk }
    requires viewer { viewer.book ≡ J.desk }
{
    let back: Back<MemFolder, GreetingSet, Told<GreetingSet>, J> = Back::new(desk, folder, dir);
    let office = Office::new(back);
    let mut clerk = OfficeClerk::new(&office);
    let mut room = LinkRoom::new(alloc);
    let mut good = true;
    for case in cases {
        good &= is_served(rt, alloc, &mut clerk, &mut viewer, &mut room, *case);
    }
    let _folder = office.close(rt);
    good
}

// The same with a first set of so many files, and so many in the folder.
fn serve_cases<R: Wait + Sync>(
    rt: &R,
    alloc: Global,
    first: u8,
    later: u8,
    cases: &[Case<'_>],
) -> Result<bool, Memory> {
    let folder = folder_of(alloc, later)?;
    let dir = Text::copy_of(alloc, "site")?;
    let set = set_of(alloc, first)?;
    let mut desk: GreetingDesk = Desk::open(alloc, rt, set)?;
    let Ok(viewer) = desk.seat() else {
        desk.close(rt);
        return Ok(false);
    };
    Ok(are_served::<Brand, R>(rt, alloc, desk, folder, dir, viewer, cases))
}

// A page; the number; a method that `/set` has not, and the end of the connection; and one more.
const ASKED: &[u8] = b"GET /p/a.html HTTP/1.1\r\nHost: x\r\n\r\n\
    GET /set HTTP/1.1\r\n\r\n\
    DELETE /set HTTP/1.1\r\nConnection: close\r\n\r\n\
    GET /set HTTP/1.1\r\n\r\n";

const REPLIES: &[u8] = b"HTTP/1.1 200 OK\r\nContent-Type: text/html; charset=utf-8\r\n\
    Content-Length: 9\r\nSet-Number: 1\r\nConnection: keep-alive\r\n\r\n<p>hi</p>\
    HTTP/1.1 200 OK\r\nContent-Type: text/plain; charset=utf-8\r\n\
    Content-Length: 6\r\nSet-Number: 1\r\nConnection: keep-alive\r\n\r\nset 1\n\
    HTTP/1.1 405 Method Not Allowed\r\nContent-Type: text/plain; charset=utf-8\r\n\
    Content-Length: 19\r\nSet-Number: 1\r\nAllow: GET\r\nConnection: close\r\n\r\n\
    Method Not Allowed\n";

// How a link ends that is cut after so many of the bytes, and how many bytes of replies it gets.
fn end_at(cut: usize) -> (LinkEnd, usize) {
    let (requests, written, why) = match cut {
        0 => (0, 0, LinkWhy::Closed),
        1..=34 => (0, 0, LinkWhy::CutRequest),
        35 => (1, 126, LinkWhy::Closed),
        36..=55 => (1, 126, LinkWhy::CutRequest),
        56 => (2, 250, LinkWhy::Closed),
        57..=98 => (2, 250, LinkWhy::CutRequest),
        _ => (3, 411, LinkWhy::Asked),
    };
    let last = if requests == 0 { 0 } else { 1 };
    let end = LinkEnd {
        requests,
        last,
        why,
    };
    (end, written)
}

// The bytes, cut after each of them; they come one, some or all at a time.
fn cuts(alloc: Global) -> Result<Vec<Case<'static>>, Memory> {
    let mut cases = Vec::new(alloc);
    for cut in 0..ASKED.len() + 1 {
        let (end, written) = end_at(cut);
        let (asked, _) = ASKED.split_at(cut);
        let (written, _) = REPLIES.split_at(written.min(REPLIES.len()));
        let step = if cut % 3 == 0 { 1 } else { cut as u64 };
        cases.push(Case {
            asked,
            step,
            fail: 0,
            end,
            written,
        })?;
    }
    Ok(cases)
}

#[test]
fn a_link_is_cut_anywhere(rt: HostRuntime) -> Result<(), Fail> {
    let cases = cuts(rt.alloc())?;
    let good = serve_cases(&rt, rt.alloc(), 1, 1, cases.as_slice())?;
    assert!(rt; good && cases.len() == 121);
    Ok(())
}

const RELOADS: &[u8] = b"POST /reload HTTP/1.1\r\nContent-Length: 0\r\n\r\n\
    GET /set HTTP/1.1\r\nSet-At-Least: 9\r\n\r\n\
    GET /set HTTP/1.1\r\n\r\n\
    POST /p/a.html HTTP/1.1\r\n\r\n";

const RELOADED: &[u8] = b"HTTP/1.1 200 OK\r\nContent-Type: text/plain; charset=utf-8\r\n\
    Content-Length: 6\r\nSet-Number: 2\r\nConnection: keep-alive\r\n\r\nset 2\n\
    HTTP/1.1 409 Conflict\r\nContent-Type: text/plain; charset=utf-8\r\n\
    Content-Length: 11\r\nSet-Number: 2\r\nConnection: keep-alive\r\n\r\nbehind 9 2\n\
    HTTP/1.1 200 OK\r\nContent-Type: text/plain; charset=utf-8\r\n\
    Content-Length: 6\r\nSet-Number: 2\r\nConnection: keep-alive\r\n\r\nset 2\n\
    HTTP/1.1 400 Bad Request\r\nContent-Type: text/plain; charset=utf-8\r\n\
    Content-Length: 12\r\nSet-Number: 2\r\nConnection: close\r\n\r\nBad Request\n";

#[test]
fn a_reload_is_seen_from_then_on(rt: HostRuntime) -> Result<(), Fail> {
    let end = LinkEnd {
        requests: 4,
        last: 2,
        why: LinkWhy::Asked,
    };
    let case = Case {
        asked: RELOADS,
        step: 1000,
        fail: 0,
        end,
        written: RELOADED,
    };
    let good = serve_cases(&rt, rt.alloc(), 1, 1, &[case])?;
    assert!(rt; good);
    Ok(())
}

const REFUSED: &[u8] = b"HTTP/1.1 422 Unprocessable Entity\r\n\
    Content-Type: text/plain; charset=utf-8\r\nContent-Length: 21\r\nSet-Number: 1\r\n\
    Connection: keep-alive\r\n\r\nrefused SeveralFiles\n";

const UNAVAILABLE: &[u8] = b"HTTP/1.1 503 Service Unavailable\r\n\
    Content-Type: text/plain; charset=utf-8\r\nContent-Length: 7\r\nSet-Number: 1\r\n\
    Connection: close\r\n\r\nmemory\n";

// A set that is refused changes nothing; and where there is no memory for a page, what follows its
// request is not read.
#[test]
fn a_refusal_and_want_of_memory_are_answered(rt: HostRuntime) -> Result<(), Fail> {
    let (reload, _) = RELOADS.split_at(44);
    let refused = Case {
        asked: reload,
        step: 1000,
        fail: 0,
        end: LinkEnd {
            requests: 1,
            last: 1,
            why: LinkWhy::Closed,
        },
        written: REFUSED,
    };
    let unavailable = Case {
        asked: ASKED,
        step: 1000,
        fail: 0,
        end: LinkEnd {
            requests: 1,
            last: 1,
            why: LinkWhy::Asked,
        },
        written: UNAVAILABLE,
    };
    let good = serve_cases(&rt, rt.alloc(), 0, 2, &[refused, unavailable])?;
    assert!(rt; good);
    Ok(())
}

// The first read fails, the second write of a reply, and the write of a second reply.
#[test]
fn a_link_fails(rt: HostRuntime) -> Result<(), Fail> {
    let (asked, _) = ASKED.split_at(56);
    let mut cases = Vec::new(rt.alloc());
    for (step, fail, requests, last, written) in [
        (1000u64, 1u64, 0u32, 0u64, 0usize),
        (100, 3, 0, 0, 100),
        (1000, 3, 1, 1, 126),
    ] {
        let (written, _) = REPLIES.split_at(written.min(REPLIES.len()));
        cases.push(Case {
            asked,
            step,
            fail,
            end: LinkEnd {
                requests,
                last,
                why: LinkWhy::LinkFault,
            },
            written,
        })?;
    }
    let good = serve_cases(&rt, rt.alloc(), 1, 1, cases.as_slice())?;
    assert!(rt; good);
    Ok(())
}

// Bytes, so often.
fn repeated(alloc: Global, bytes: &[u8], count: u32) -> Result<Vec<u8>, Memory> {
    let mut all = Vec::new(alloc);
    for _ in 0..count {
        all.extend_from_slice(bytes)?;
    }
    Ok(all)
}

const SET_REPLY: &[u8] = b"HTTP/1.1 200 OK\r\nContent-Type: text/plain; charset=utf-8\r\n\
    Content-Length: 6\r\nSet-Number: 1\r\nConnection: keep-alive\r\n\r\nset 1\n";

const LAST_REPLY: &[u8] = b"HTTP/1.1 200 OK\r\nContent-Type: text/plain; charset=utf-8\r\n\
    Content-Length: 6\r\nSet-Number: 1\r\nConnection: close\r\n\r\nset 1\n";

// The last request that is answered closes the connection, and the next one is not answered.
#[test]
fn a_link_has_ten_thousand_requests(rt: HostRuntime) -> Result<(), Fail> {
    let asked = repeated(rt.alloc(), b"GET /set HTTP/1.1\r\n\r\n", 10_001)?;
    let mut written = repeated(rt.alloc(), SET_REPLY, 9_999)?;
    written.extend_from_slice(LAST_REPLY)?;
    let case = Case {
        asked: asked.as_slice(),
        step: 1_000_000,
        fail: 0,
        end: LinkEnd {
            requests: 10_000,
            last: 1,
            why: LinkWhy::Full,
        },
        written: written.as_slice(),
    };
    let good = serve_cases(&rt, rt.alloc(), 1, 1, &[case])?;
    assert!(rt; good);
    Ok(())
}
