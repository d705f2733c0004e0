// Links are served with a pager that keeps something: how often it was asked, and by the set of
// which number last.
ghost use Rattle.std.specs.Prelude.{◌≡◌, ◌+◌, ◌≤◌, length};

use super::{
    ASKED, Case, GreetingDesk, GreetingSet, GreetingViewer, LAST_REPLY, RELOADED, RELOADS, REPLIES,
    SET_REPLY, folder_of, link_of, repeated, set_of,
};
use crate::end::{LinkEnd, LinkWhy};
use crate::link_room::LinkRoom;
use crate::pager::Pager;
use crate::serve::serve_with;
use page_datum::Pages;
use page_http::{Answer, Request, Routes, reply_to};
use page_io::{MemFolder, Memory, Text};
use page_net::MemLink;
use page_office::{Back, Office, OfficeClerk};
use set_publisher::{Desk, Named, Told};
use std::alloc::Global;
use std::marker::Brand;
use std::sync::Wait;
use std::test::Fail;

// What a set answers is found by the set alone, and counted.
#[derive(Clone, Copy, Debug, PartialEq, Eq)]
struct CountingPager {
    asked: u64,
    last: u64,
}

impl<P: Pages> Pager<P> for CountingPager {
    ghost use Rattle.std.specs.Prelude.{◌≡◌, ◌+◌, ◌-◌, ◌^◌, ◌≤◌, ℕ, length, min};
    ghost use Rattle.std.proofs.Common.{arith, ap, length-append};

    ghost State = { ℕ × ℕ };

    ghost state = { λ pager. (pager.asked, pager.last) };

    // No set has a greater number than the last one.
    ghost stands = { λ kept sets. kept.1 ≤ length sets };

    // One more was asked, by a set that is no older.
    ghost pages = { λ kept0 kept _ _ n _.
        (kept.0 ≡ min (kept0.0 + 1) (2 ^ 64 - 1)) × (kept.1 ≡ n) × (kept0.1 ≤ n) };

    ghost stays = { λ _ old _ later h.
        Prim.omega (arith, h, ap length later.1, length-append old later.0) };

    fn answer(
        &mut self,
        alloc: Global,
        routes: &Routes,
        set: &P,
        request: &Request,
        number: u64,
    ) -> Result<Answer, Memory> {
        self.asked = self.asked.saturating_add(1);
        self.last = number;
        reply_to(alloc, routes, set, request, number)
    }
}

type GreetingClerk<'o, J> = OfficeClerk<'o, MemFolder, GreetingSet, Told<GreetingSet>, J>;

// Serves a link. The pager is asked at most once for each request that is answered, and for one more
// whose reply was cut off.
fn serve_counted<J: Named, R: Wait + Sync>(
    rt: &R,
    alloc: Global,
    clerk: &mut GreetingClerk<'_, J>,
    viewer: &mut GreetingViewer,
    pager: &mut CountingPager,
    link: &mut MemLink,
) -> LinkEnd
    requires desk { viewer.old.book ≡ J.desk }
    requires stands { pager.old.last ≤ length viewer.old.sets }
    ensures desk { viewer.new.book ≡ viewer.old.book }
    ensures stands { pager.new.last ≤ length viewer.new.sets }
    ensures counted { pager.new.asked ≤ pager.old.asked + result.requests + 1 }
{
    let mut room = LinkRoom::new(alloc);
    serve_with(alloc, rt, viewer, clerk, pager, link, &mut room)
}

// Whether a link ends so, and so much was written.
fn is_counted<J: Named, R: Wait + Sync>(
    rt: &R,
    alloc: Global,
    clerk: &mut GreetingClerk<'_, J>,
    viewer: &mut GreetingViewer,
    pager: &mut CountingPager,
    case: Case<'_>,
) -> bool
    requires desk { viewer.old.book ≡ J.desk }
    requires stands { pager.old.last ≤ length viewer.old.sets }
    ensures desk { viewer.new.book ≡ viewer.old.book }
    ensures stands { pager.new.last ≤ length viewer.new.sets }
{
    match link_of(alloc, case) {
        Ok(mut link) => {
            let end = serve_counted(rt, alloc, clerk, viewer, pager, &mut link);
            end == case.end && link.taken() == case.written
        }
        Err(Memory) => false,
    }
}

// Serves links one after another with one pager, and gives what it has then, where each link ends
// so, and so much was written.
fn count_all<J: Named, R: Wait + Sync>(
    rt: &R,
    alloc: Global,
    desk: GreetingDesk,
    folder: MemFolder,
    dir: Text,
    mut viewer: GreetingViewer,
    cases: &[Case<'_>],
) -> Option<CountingPager>
    requires desk { desk.book ≡ J.desk }
    requires viewer { viewer.book ≡ J.desk }
{
    let back: Back<MemFolder, GreetingSet, Told<GreetingSet>, J> = Back::new(desk, folder, dir);
    let office = Office::new(back);
    let mut clerk = OfficeClerk::new(&office);
    let mut pager = CountingPager { asked: 0, last: 0 };
    let mut good = true;
    for case in cases {
        good &= is_counted(rt, alloc, &mut clerk, &mut viewer, &mut pager, *case);
    }
    let _folder = office.close(rt);
    if good { Some(pager) } else { None }
}

// The same with a first set of one file, and one file in the folder.
fn count_cases<R: Wait + Sync>(
    rt: &R,
    alloc: Global,
    cases: &[Case<'_>],
) -> Result<Option<CountingPager>, Memory> {
    let folder = folder_of(alloc, 1)?;
    let dir = Text::copy_of(alloc, "site")?;
    let set = set_of(alloc, 1)?;
    let mut desk: GreetingDesk = Desk::open(alloc, rt, set)?;
    let Ok(viewer) = desk.seat() else {
        desk.close(rt);
        return Ok(None);
    };
    Ok(count_all::<Brand, R>(rt, alloc, desk, folder, dir, viewer, cases))
}

// A link whose bytes come all at once.
fn case_of<'b>(asked: &'b [u8], end: LinkEnd, written: &'b [u8]) -> Case<'b> {
    Case {
        asked,
        step: 1_000_000,
        fail: 0,
        end,
        written,
    }
}

// It is asked for each request that is read: for the fourth of `ASKED` it is not, since the third
// closes the connection.
#[test]
fn a_pager_is_asked_for_each_request(rt: HostRuntime) -> Result<(), Fail> {
    let end = LinkEnd {
        requests: 3,
        last: 1,
        why: LinkWhy::Asked,
    };
    let counted = count_cases(&rt, rt.alloc(), &[case_of(ASKED, end, REPLIES)])?;
    assert!(rt; counted == Some(CountingPager { asked: 3, last: 1 }));
    Ok(())
}

const MALFORMED: &[u8] = b"GET /set HTTP/2.0\r\n\r\n";

const BAD_REQUEST: &[u8] = b"HTTP/1.1 400 Bad Request\r\n\
    Content-Type: text/plain; charset=utf-8\r\nContent-Length: 12\r\nSet-Number: 1\r\n\
    Connection: close\r\n\r\nBad Request\n";

// What is no request is refused without it.
#[test]
fn a_pager_is_not_asked_for_what_is_refused(rt: HostRuntime) -> Result<(), Fail> {
    let end = LinkEnd {
        requests: 1,
        last: 1,
        why: LinkWhy::Asked,
    };
    let counted = count_cases(&rt, rt.alloc(), &[case_of(MALFORMED, end, BAD_REQUEST)])?;
    assert!(rt; counted == Some(CountingPager { asked: 0, last: 0 }));
    Ok(())
}

// What it keeps goes from request to request and from link to link, and over a reload. Of the four
// that `RELOADS` has, the last one is refused before it is asked.
#[test]
fn a_pager_keeps_what_it_counted(rt: HostRuntime) -> Result<(), Fail> {
    let end = LinkEnd {
        requests: 4,
        last: 2,
        why: LinkWhy::Asked,
    };
    let first = case_of(RELOADS, end, RELOADED);
    let (_, later) = RELOADS.split_at(44);
    let (_, written) = RELOADED.split_at(124);
    let end = LinkEnd {
        requests: 3,
        last: 2,
        why: LinkWhy::Asked,
    };
    let second = case_of(later, end, written);
    let counted = count_cases(&rt, rt.alloc(), &[first, second])?;
    assert!(rt; counted == Some(CountingPager { asked: 5, last: 2 }));
    Ok(())
}

#[test]
fn a_pager_is_asked_ten_thousand_times(rt: HostRuntime) -> Result<(), Fail> {
    let asked = repeated(rt.alloc(), b"GET /set HTTP/1.1\r\n\r\n", 10_001)?;
    let mut written = repeated(rt.alloc(), SET_REPLY, 9_999)?;
    written.extend_from_slice(LAST_REPLY)?;
    let end = LinkEnd {
        requests: 10_000,
        last: 1,
        why: LinkWhy::Full,
    };
    let case = case_of(asked.as_slice(), end, written.as_slice());
    let counted = count_cases(&rt, rt.alloc(), &[case])?;
    assert!(rt;
        counted
            == Some(CountingPager {
                asked: 10_000,
                last: 1
            })
    );
    Ok(())
}
