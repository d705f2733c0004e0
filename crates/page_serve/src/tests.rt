ghost use Rattle.std.specs.Prelude.{◌≡◌, ◌++◌, OnOk};
ghost use Rattle.page_datum.specs.Lines.{HasPrefix};

use crate::serving::serve;
use crate::stop::ServeStop;
use page_datum::{Datum, Files, PageEnd, PageStop, Pages, Shown};
use page_io::{Bytes, Failed, List, MemFile, MemFolder, MemSink, Memory, Sink, Text, write_all};
use page_net::{Door, GateLink, Link, MemDoor, MemLink, MemNet, Net, SureLink};
use page_spawn::{InlineSpawner, Spawner, ThreadSpawner};
use set_publisher::PackSeats;
use std::alloc::Global;
use std::sync::Wait;
use std::test::Fail;

// A set whose pages are all the same. It is made of one file at most.
#[derive(Drop)]
struct SamePages {
    files: Files,
}

// The files are two or more.
#[derive(Debug, Drop)]
struct TwoFiles;

// Appends a line.
fn push_refusal(out: &mut Text, line: &str) -> Result<(), Memory>
    ensures ok { OnOk result (out.new ≡ out.old ++ line.now) }
    ensures prefix { HasPrefix out.old out.new line.now }
{
    out.push_str(line)
}

impl Shown for TwoFiles {
    ghost use Rattle.std.specs.Prelude.{codes, false};

    ghost text = { λ _. codes "refused TwoFiles\n" };

    ghost is_memory = { λ _. false };

    fn lines(&self, out: &mut Text) -> Result<(), Memory> {
        push_refusal(out, "refused TwoFiles\n")
    }

    fn memory(&self) -> bool {
        false
    }
}

impl Pages for SamePages {
    type Refused = TwoFiles;

    ghost use Rattle.std.specs.Prelude.{◌≡◌, ◌<◌, codes, length};
    ghost use Rattle.page_datum.specs.Execution.{done};

    ghost made_of = { λ set. set.files };

    ghost refuses = { λ files. 1 < length files.list };

    ghost execution = { λ _ _ _. record { bytes = codes "<p>hi</p>"; steps = 1; ending = done } };

    ghost is_execution = { λ _ _ _ execution. execution.ending ≡ done };

    ghost is_sound = { λ _ _ _ page. page ≡ codes "<p>hi</p>" };

    fn make(_alloc: Global, files: Files) -> Result<SamePages, TwoFiles> {
        if files.list.as_slice().len() <= 1 {
            Ok(SamePages { files })
        } else {
            Err(TwoFiles)
        }
    }

    fn page<K: Sink>(
        &self,
        _alloc: Global,
        _root: &str,
        _datum: &Datum,
        out: &mut K,
    ) -> Result<PageEnd, PageStop> {
        match write_all(out, b"<p>hi</p>") {
            Ok(()) => Ok(PageEnd { bytes: 9, steps: 1 }),
            Err(Failed) => Err(PageStop::SinkStop),
        }
    }
}

// The call that fails of each device, counted from 1, or 0. The door is the last one, the link the
// first.
#[derive(Clone, Copy)]
struct FailingCalls {
    net: u64,
    door: u64,
    link: u64,
    seat: u64,
    spawn: u64,
    folder: u64,
    write: u64,
}

const NO_CALL: FailingCalls = FailingCalls {
    net: 0,
    door: 0,
    link: 0,
    seat: 0,
    spawn: 0,
    folder: 0,
    write: 0,
};

// This number alone.
fn only(alloc: Global, call: u64) -> Result<List<u64>, Memory> {
    let mut calls = List::new(alloc);
    calls.push(call)?;
    Ok(calls)
}

// A folder with two template files in the directory `site`, of which no set can be made, or one.
fn folder_of(alloc: Global, is_refused: bool, fail: u64) -> Result<MemFolder, Memory> {
    let mut files = List::new(alloc);
    files.push(file_of(alloc, "a.html")?)?;
    if is_refused {
        files.push(file_of(alloc, "b.html")?)?;
    }
    Ok(MemFolder::new(files, only(alloc, fail)?))
}

fn file_of(alloc: Global, name: &str) -> Result<MemFile, Memory> {
    Ok(MemFile {
        dir: Text::copy_of(alloc, "site")?,
        name: Text::copy_of(alloc, name)?,
        bytes: Bytes::new(alloc),
    })
}

// Serves a net, and says whether this is the answer, and these lines were written.
fn answers<N: Net, T: Spawner, R: Wait + Sync>(
    rt: &R,
    alloc: Global,
    net: &mut N,
    spawn: &mut T,
    folder: MemFolder,
    calls: FailingCalls,
    workers: u32,
    links: u64,
    answer: Result<(), ServeStop>,
    lines: &str,
) -> Result<bool, Memory>
where
    N::Door: Send + Drop,
    <N::Door as Door>::Link: Send,
{
    let dir = Text::copy_of(alloc, "site")?;
    let first = SamePages {
        files: Files {
            dir: Text::copy_of(alloc, "site")?,
            list: List::new(alloc),
        },
    };
    let mut out = MemSink::new(alloc, 1_000, 50, only(alloc, calls.write)?)?;
    let mut seats = PackSeats::new(only(alloc, calls.seat)?);
    let (done, _folder) = serve(
        alloc, rt, first, folder, dir, "here:1", workers, links, &mut out, net, spawn, &mut seats,
    );
    Ok(done == answer && out.taken() == lines.as_bytes())
}

const ASK: &[u8] = b"GET /set HTTP/1.1\r\n\r\n";

const ASK_TWICE: &[u8] = b"GET /set HTTP/1.1\r\n\r\nGET /set HTTP/1.1\r\n\r\n";

// Two doors with a link each.
fn two_doors<L: Link + Drop>(
    alloc: Global,
    first: L,
    second: L,
    calls: FailingCalls,
) -> Result<MemNet<L>, Memory> {
    let mut links = List::new(alloc);
    links.push(first)?;
    let mut more_links = List::new(alloc);
    more_links.push(second)?;
    let mut doors = List::new(alloc);
    doors.push(MemDoor::new(alloc, links, List::new(alloc))?)?;
    doors.push(MemDoor::new(alloc, more_links, only(alloc, calls.door)?)?)?;
    MemNet::new(alloc, doors, only(alloc, calls.net)?)
}

fn link_of(alloc: Global, bytes: &[u8], room: u64, fail: u64) -> Result<MemLink, Memory> {
    let bytes = Bytes::copy_of(alloc, bytes)?;
    MemLink::new(alloc, bytes, room, 1_000_000, only(alloc, fail)?)
}

// Two workers serve a link each, on which the number is asked once and twice. Whether this is the
// answer, so many doors are back, and these lines were written.
fn two_serve<T: Spawner, R: Wait + Sync>(
    rt: &R,
    alloc: Global,
    spawn: &mut T,
    calls: FailingCalls,
    answer: Result<(), ServeStop>,
    back: usize,
    lines: &str,
) -> Result<bool, Memory> {
    let once = link_of(alloc, ASK, 1_000, calls.link)?;
    let twice = link_of(alloc, ASK_TWICE, 1_000, 0)?;
    let mut net = two_doors(alloc, once, twice, calls)?;
    let folder = folder_of(alloc, false, 0)?;
    let good = answers(
        rt, alloc, &mut net, spawn, folder, calls, 2, 1, answer, lines,
    )?;
    Ok(good && net.back().len() == back)
}

const BOTH: &str = "worker 1: links 1 requests 1 set 1\nworker 2: links 1 requests 2 set 1\n";

// The first 50 bytes of them; and where the second one's door fails, or the first one's link.
const BEGUN: &str = "worker 1: links 1 requests 1 set 1\nworker 2: links";

const DOOR_FAILS: &str = "worker 1: links 1 requests 1 set 1\nworker 2: links 0 requests 0 set 0\n";

const LINK_FAILS: &str = "worker 1: links 1 requests 0 set 0\nworker 2: links 1 requests 2 set 1\n";

#[test]
fn two_threads_serve_a_link_each(rt: HostRuntime) -> Result<(), Fail> {
    let alloc = rt.alloc();
    let mut threads = ThreadSpawner::new(&rt);
    assert!(rt; two_serve(&rt, alloc, &mut threads, NO_CALL, Ok(()), 2, BOTH)?);
    Ok(())
}

#[test]
fn each_device_may_fail(rt: HostRuntime) -> Result<(), Fail> {
    let alloc = rt.alloc();
    let rows = [
        (NO_CALL, Ok(()), 2usize, BOTH),
        (
            FailingCalls { net: 1, ..NO_CALL },
            Err(ServeStop::Net),
            0,
            "",
        ),
        (
            FailingCalls { net: 2, ..NO_CALL },
            Err(ServeStop::Net),
            1,
            "",
        ),
        (
            FailingCalls { door: 1, ..NO_CALL },
            Err(ServeStop::Net),
            2,
            DOOR_FAILS,
        ),
        (
            FailingCalls { seat: 2, ..NO_CALL },
            Err(ServeStop::Seat),
            2,
            "",
        ),
        (
            FailingCalls {
                spawn: 1,
                ..NO_CALL
            },
            Err(ServeStop::Spawn),
            2,
            "",
        ),
        (FailingCalls { link: 1, ..NO_CALL }, Ok(()), 2, LINK_FAILS),
        (
            FailingCalls {
                write: 1,
                ..NO_CALL
            },
            Err(ServeStop::Write),
            2,
            "",
        ),
        // The lines are written in two calls.
        (
            FailingCalls {
                write: 2,
                ..NO_CALL
            },
            Err(ServeStop::Write),
            2,
            BEGUN,
        ),
    ];
    for (calls, answer, back, lines) in rows {
        let mut spawn: InlineSpawner<HostRuntime> = InlineSpawner::new(only(alloc, calls.spawn)?);
        assert!(rt; two_serve(&rt, alloc, &mut spawn, calls, answer, back, lines)?);
    }
    Ok(())
}

// One worker serves these links, one after another. Whether each gets what stands beside it, and
// this line is written.
fn one_serves<T: Spawner, R: Wait + Sync>(
    rt: &R,
    alloc: Global,
    spawn: &mut T,
    folder: MemFolder,
    cases: &[(&[u8], &[u8])],
    line: &str,
) -> Result<bool, Memory> {
    let mut links = List::new(alloc);
    for (asked, written) in cases {
        links.push(link_of(alloc, asked, written.len() as u64, 0)?)?;
    }
    let mut doors = List::new(alloc);
    doors.push(MemDoor::new(alloc, links, List::new(alloc))?)?;
    let mut net = MemNet::new(alloc, doors, List::new(alloc))?;
    let good = answers(
        rt,
        alloc,
        &mut net,
        spawn,
        folder,
        NO_CALL,
        1,
        1_000,
        Ok(()),
        line,
    )?;
    Ok(good && net.back().iter().all(|door| have_got(door.back(), cases)))
}

// Whether each of these links has got what stands beside it.
fn have_got(links: &[MemLink], cases: &[(&[u8], &[u8])]) -> bool {
    let mut good = links.len() == cases.len();
    for (link, (_, written)) in links.iter().zip(cases) {
        good &= link.taken() == *written;
    }
    good
}

const PAGE: &[u8] = b"GET /p/a.html?q=%3Cb%3E HTTP/1.1\r\nHost: x\r\n\r\n";

const PAGE_REPLY: &[u8] = b"HTTP/1.1 200 OK\r\nContent-Type: text/html; charset=utf-8\r\n\
    Content-Length: 9\r\nSet-Number: 1\r\nConnection: keep-alive\r\n\r\n<p>hi</p>";

// On a link that ends within a request nothing is written, and the next link is served.
#[test]
fn a_request_is_cut_anywhere(rt: HostRuntime) -> Result<(), Fail> {
    let alloc = rt.alloc();
    let mut cases: Vec<(&[u8], &[u8])> = Vec::new(alloc);
    for cut in 0..PAGE.len() {
        let (asked, _) = PAGE.split_at(cut);
        cases.push((asked, b""))?;
    }
    cases.push((PAGE, PAGE_REPLY))?;
    let mut spawn: InlineSpawner<HostRuntime> = InlineSpawner::new(List::new(alloc));
    let folder = folder_of(alloc, false, 0)?;
    let line = "worker 1: links 46 requests 1 set 1\n";
    assert!(rt; one_serves(&rt, alloc, &mut spawn, folder, cases.as_slice(), line)?);
    Ok(())
}

const RELOAD_AND_PAGE: &[u8] = b"POST /reload HTTP/1.1\r\nContent-Length: 0\r\n\r\n\
    GET /p/a.html HTTP/1.1\r\n\r\n";

const RELOADED: &[u8] = b"HTTP/1.1 200 OK\r\nContent-Type: text/plain; charset=utf-8\r\n\
    Content-Length: 6\r\nSet-Number: 2\r\nConnection: keep-alive\r\n\r\nset 2\n\
    HTTP/1.1 200 OK\r\nContent-Type: text/html; charset=utf-8\r\n\
    Content-Length: 9\r\nSet-Number: 2\r\nConnection: keep-alive\r\n\r\n<p>hi</p>";

const REFUSED: &[u8] = b"HTTP/1.1 422 Unprocessable Entity\r\n\
    Content-Type: text/plain; charset=utf-8\r\nContent-Length: 17\r\nSet-Number: 1\r\n\
    Connection: keep-alive\r\n\r\nrefused TwoFiles\n\
    HTTP/1.1 200 OK\r\nContent-Type: text/html; charset=utf-8\r\n\
    Content-Length: 9\r\nSet-Number: 1\r\nConnection: keep-alive\r\n\r\n<p>hi</p>";

const READ_FAULT: &[u8] = b"HTTP/1.1 500 Internal Server Error\r\n\
    Content-Type: text/plain; charset=utf-8\r\nContent-Length: 11\r\nSet-Number: 1\r\n\
    Connection: keep-alive\r\n\r\nread fault\n\
    HTTP/1.1 200 OK\r\nContent-Type: text/html; charset=utf-8\r\n\
    Content-Length: 9\r\nSet-Number: 1\r\nConnection: keep-alive\r\n\r\n<p>hi</p>";

const ONE_SET: &str = "worker 1: links 1 requests 2 set 1\n";

const TWO_SETS: &str = "worker 1: links 1 requests 2 set 2\n";

// A reload, and the page after it: of one file, and of two, of which each call fails in turn.
#[test]
fn a_reload_may_fail(rt: HostRuntime) -> Result<(), Fail> {
    let alloc = rt.alloc();
    let rows = [
        (false, 0u64, RELOADED, TWO_SETS),
        (true, 0, REFUSED, ONE_SET),
        (true, 1, READ_FAULT, ONE_SET),
        (true, 2, READ_FAULT, ONE_SET),
        (true, 3, READ_FAULT, ONE_SET),
        (true, 4, REFUSED, ONE_SET),
    ];
    for (is_refused, fail, written, line) in rows {
        let mut spawn: InlineSpawner<HostRuntime> = InlineSpawner::new(List::new(alloc));
        let folder = folder_of(alloc, is_refused, fail)?;
        let cases = [(RELOAD_AND_PAGE, written)];
        assert!(rt; one_serves(&rt, alloc, &mut spawn, folder, &cases, line)?);
    }
    Ok(())
}

const SET_REPLY: &[u8] = b"HTTP/1.1 200 OK\r\nContent-Type: text/plain; charset=utf-8\r\n\
    Content-Length: 6\r\nSet-Number: 1\r\nConnection: keep-alive\r\n\r\nset 1\n";

const LAST_REPLY: &[u8] = b"HTTP/1.1 200 OK\r\nContent-Type: text/plain; charset=utf-8\r\n\
    Content-Length: 6\r\nSet-Number: 1\r\nConnection: close\r\n\r\nset 1\n";

const LONG_HEAD: &[u8] = b"HTTP/1.1 431 Request Header Fields Too Large\r\n\
    Content-Type: text/plain; charset=utf-8\r\nContent-Length: 32\r\nSet-Number: 1\r\n\
    Connection: close\r\n\r\nRequest Header Fields Too Large\n";

const LONG_BODY: &[u8] = b"HTTP/1.1 413 Payload Too Large\r\n\
    Content-Type: text/plain; charset=utf-8\r\nContent-Length: 18\r\nSet-Number: 1\r\n\
    Connection: close\r\n\r\nPayload Too Large\n";

const POST_LONGEST: &[u8] = b"POST /p/a.html HTTP/1.1\r\nContent-Type: application/json\r\n\
    Content-Length: 1048576\r\n\r\n{}";

const POST_TOO_LONG: &[u8] = b"POST /p/a.html HTTP/1.1\r\nContent-Type: application/json\r\n\
    Content-Length: 1048577\r\n\r\n";

// Bytes, then others so often, and others at the end.
fn padded(
    alloc: Global,
    begin: &[u8],
    pad: &[u8],
    count: u32,
    end: &[u8],
) -> Result<Vec<u8>, Memory> {
    let mut all = begin.to_vec(alloc)?;
    for _ in 0..count {
        all.extend_from_slice(pad)?;
    }
    all.extend_from_slice(end)?;
    Ok(all)
}

// A head of 16,384 bytes and one of 16,385; a body of 1,048,576 bytes and a length of one more; and
// 10,001 requests on a link.
#[test]
fn limits_hold(rt: HostRuntime) -> Result<(), Fail> {
    let alloc = rt.alloc();
    let head = padded(
        alloc,
        b"GET /set HTTP/1.1\r\nX: ",
        b"x",
        16_358,
        b"\r\n\r\n",
    )?;
    let long_head = padded(
        alloc,
        b"GET /set HTTP/1.1\r\nX: ",
        b"x",
        16_359,
        b"\r\n\r\n",
    )?;
    let body = padded(alloc, POST_LONGEST, b"  ", 524_287, b"")?;
    let requests = padded(alloc, b"", ASK, 10_001, b"")?;
    let replies = padded(alloc, b"", SET_REPLY, 9_999, LAST_REPLY)?;
    let cases = [
        (head.as_slice(), SET_REPLY),
        (long_head.as_slice(), LONG_HEAD),
        (body.as_slice(), PAGE_REPLY),
        (POST_TOO_LONG, LONG_BODY),
        (requests.as_slice(), replies.as_slice()),
    ];
    let mut spawn: InlineSpawner<HostRuntime> = InlineSpawner::new(List::new(alloc));
    let folder = folder_of(alloc, false, 0)?;
    let line = "worker 1: links 5 requests 10004 set 1\n";
    assert!(rt; one_serves(&rt, alloc, &mut spawn, folder, &cases, line)?);
    Ok(())
}

// Two workers, of which the first one's link is not read before something was written to the second
// one's, for at most so many turns.
fn wait_for_another<T: Spawner, R: Wait + Sync>(
    rt: &R,
    alloc: Global,
    spawn: &mut T,
    turns: u64,
    lines: &str,
) -> Result<bool, Memory> {
    let second = GateLink::opening(alloc, SureLink::new(Bytes::copy_of(alloc, ASK)?, 100))?;
    let first = second.waiting(SureLink::new(Bytes::copy_of(alloc, ASK)?, 100), turns)?;
    let mut net = two_doors(alloc, first, second, NO_CALL)?;
    let folder = folder_of(alloc, false, 0)?;
    answers(
        rt,
        alloc,
        &mut net,
        spawn,
        folder,
        NO_CALL,
        2,
        1,
        Ok(()),
        lines,
    )
}

const MET: &str = "worker 1: links 1 requests 1 set 1\nworker 2: links 1 requests 1 set 1\n";

const NOT_MET: &str = "worker 1: links 1 requests 0 set 0\nworker 2: links 1 requests 1 set 1\n";

// In threads the workers serve at once; one after another the first one's link fails.
#[test]
fn workers_serve_at_once(rt: HostRuntime) -> Result<(), Fail> {
    let alloc = rt.alloc();
    let mut threads = ThreadSpawner::new(&rt);
    assert!(rt; wait_for_another(&rt, alloc, &mut threads, 10_000_000, MET)?);
    let mut inline: InlineSpawner<HostRuntime> = InlineSpawner::new(List::new(alloc));
    assert!(rt; wait_for_another(&rt, alloc, &mut inline, 10, NOT_MET)?);
    Ok(())
}
