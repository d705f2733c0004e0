// Two threads serve links, each with a viewer of its own, while a third one publishes sets. The page
// of each set says the set's number.
ghost use Rattle.std.specs.Prelude.{◌≡◌};

use crate::link_room::LinkRoom;
use crate::serve::serve_link;
use page_datum::{Datum, Files, PageEnd, PageStop, Pages, Shown};
use page_io::{Bytes, Failed, List, Memory, Sink, Text, write_all};
use page_net::MemLink;
use page_office::{Clerk, Verdict};
use set_publisher::{Desk, Named, Notice, Told, Viewer};
use std::alloc::Global;
use std::marker::Brand;
use std::sync::Wait;
use std::test::Fail;
use std::thread;
use std::thread::Threads;

// How many links each viewer serves, how many requests come on each, and how many sets there are.
const LINKS: u32 = 10;

const REQUESTS: u32 = 5_000;

const SETS: u64 = 20_000;

// A set with one page. One that is made of files has an empty page.
#[derive(Drop)]
struct NumberedSet {
    files: Files,
    page: Bytes,
}

// No files are refused.
#[derive(Debug, Drop)]
struct NumberedRefused;

impl Shown for NumberedRefused {
    ghost use Rattle.std.specs.Prelude.{[], false};

    ghost text = { λ _. [] };

    ghost is_memory = { λ _. false };

    fn lines(&self, _out: &mut Text) -> Result<(), Memory> {
        Ok(())
    }

    fn memory(&self) -> bool {
        false
    }
}

impl Pages for NumberedSet {
    type Refused = NumberedRefused;

    ghost use Rattle.std.specs.Prelude.{◌≡◌, ⊤};
    ghost use Rattle.page_datum.specs.Execution.{done};

    ghost made_of = { λ set. set.files };

    ghost refuses = { λ _. ⊥ };

    ghost execution = { λ set _ _. record { bytes = set.page; steps = 1; ending = done } };

    ghost is_execution = { λ _ _ _ execution. execution.ending ≡ done };

    ghost is_sound = { λ _ _ _ _. ⊤ };

    fn make(alloc: Global, files: Files) -> Result<NumberedSet, NumberedRefused> {
        Ok(NumberedSet {
            files,
            page: Bytes::new(alloc),
        })
    }

    fn page<K: Sink>(
        &self,
        _alloc: Global,
        _root: &str,
        _datum: &Datum,
        out: &mut K,
    ) -> Result<PageEnd, PageStop> {
        match write_all(out, self.page.as_slice()) {
            Ok(()) => Ok(PageEnd {
                bytes: self.page.len() as u64,
                steps: 1,
            }),
            Err(Failed) => Err(PageStop::SinkStop),
        }
    }
}

type NumberedDesk = Desk<NumberedSet, Told<NumberedSet>>;

type NumberedViewer = Viewer<NumberedSet, Told<NumberedSet>>;

// A clerk who has no memory for a reload.
#[derive(Clone, Copy)]
struct NoMemoryClerk;

impl<V: Drop, S: Notice<V>, J: Named> Clerk<V, S, J> for NoMemoryClerk {
    ghost use Rattle.std.specs.Prelude.{None};

    ghost given = { λ _. None };

    fn answer<R: Wait>(
        &mut self,
        _alloc: Global,
        _rt: &R,
        _viewer: &mut Viewer<V, S>,
        _number: u64,
    ) -> Result<Verdict<J>, Memory> {
        Err(Memory)
    }
}

fn page_of(alloc: Global, number: u64) -> Result<String, Memory> {
    Ok(format!(in alloc; "<p>{number}</p>")?)
}

fn set_of(alloc: Global, number: u64) -> Result<NumberedSet, Memory> {
    let page = page_of(alloc, number)?;
    Ok(NumberedSet {
        files: Files {
            dir: Text::new(alloc),
            list: List::new(alloc),
        },
        page: Bytes::copy_of(alloc, page.as_bytes())?,
    })
}

// The reply with the page of the set of this number.
fn reply_of(alloc: Global, number: u64) -> Result<String, Memory> {
    let page = page_of(alloc, number)?;
    let length = page.len();
    Ok(format!(in alloc;
        "HTTP/1.1 200 OK\r\nContent-Type: text/html; charset=utf-8\r\nContent-Length: {length}\r\n\
        Set-Number: {number}\r\nConnection: keep-alive\r\n\r\n{page}"
    )?)
}

// A link on which the page is asked for so often.
fn link_of(alloc: Global) -> Result<MemLink, Memory> {
    let mut bytes = Bytes::new(alloc);
    for _ in 0..REQUESTS {
        bytes.push_slice(b"GET /p/a.html HTTP/1.1\r\n\r\n")?;
    }
    MemLink::new(alloc, bytes, 1_000_000, 10_000, List::new(alloc))
}

// The links that a viewer has served, if there was memory for them.
type ServedLinks = Result<List<MemLink>, Memory>;

// Serves links one after another, and gives them back.
fn serve_links<J: Named, R: Wait>(rt: &R, alloc: Global, mut viewer: NumberedViewer) -> ServedLinks
    requires { viewer.book ≡ J.desk }
{
    let mut room = LinkRoom::new(alloc);
    let mut links = List::new(alloc);
    for _ in 0..LINKS {
        let mut link = link_of(alloc)?;
        let _end = serve_link::<NumberedSet, Told<NumberedSet>, J, NoMemoryClerk, MemLink, R>(
            alloc,
            rt,
            &mut viewer,
            &mut NoMemoryClerk,
            &mut link,
            &mut room,
        );
        links.push(link)?;
    }
    Ok(links)
}

// Publishes all sets but the first, and says whether each got its number.
fn publish_all<R: Wait>(rt: &R, alloc: Global, desk: &mut NumberedDesk) -> Result<bool, Memory> {
    let mut good = true;
    for number in 2..SETS + 1 {
        let set = set_of(alloc, number)?;
        good &= desk.publish(alloc, rt, set)?.number() == number;
    }
    Ok(good)
}

fn serve_both<J: Named + Send + Sync, R: Threads + Wait + Sync>(
    rt: &R,
    alloc: Global,
    first: NumberedViewer,
    second: NumberedViewer,
) -> (ServedLinks, ServedLinks)
    requires first { first.book ≡ J.desk }
    requires second { second.book ≡ J.desk }
{
    thread::join(
        rt,
        || -> ServedLinks
            requires { first.book ≡ J.desk }
        { serve_links::<J, R>(rt, alloc, first) },
        || -> ServedLinks
            requires { second.book ≡ J.desk }
        { serve_links::<J, R>(rt, alloc, second) },
    )
}

// What two viewers have served, and whether all sets were published.
#[derive(Drop)]
struct Served {
    first: List<MemLink>,
    second: List<MemLink>,
    published: bool,
}

fn serve_and_publish<J: Named + Send + Sync, R: Threads + Wait + Sync>(
    rt: &R,
    alloc: Global,
    mut desk: NumberedDesk,
    first: NumberedViewer,
    second: NumberedViewer,
) -> Result<Served, Memory>
    requires first { first.book ≡ J.desk }
    requires second { second.book ≡ J.desk }
{
    let ((first, second), published) = thread::join(
        rt,
        || -> (ServedLinks, ServedLinks)
            requires { (first.book ≡ J.desk) × (second.book ≡ J.desk) }
        { serve_both::<J, R>(rt, alloc, first, second) },
        || publish_all(rt, alloc, &mut desk),
    );
    desk.close(rt);
    Ok(Served {
        first: first?,
        second: second?,
        published: published?,
    })
}

// The replies with the pages of all sets, in the order of their numbers.
fn all_replies(alloc: Global) -> Result<Vec<String>, Memory> {
    let mut replies = Vec::new(alloc);
    for number in 1..SETS + 1 {
        replies.push(reply_of(alloc, number)?)?;
    }
    Ok(replies)
}

// Which of the replies the bytes begin with, from this one on, and the bytes behind it.
fn next_reply<'b>(bytes: &'b [u8], replies: &[String], from: usize) -> Option<(usize, &'b [u8])> {
    for at in from..replies.len() {
        if let Some(rest) = bytes.strip_prefix(replies[at].as_bytes()) {
            return Some((at, rest));
        }
    }
    None
}

// Whether the link has got a reply to each request, none of an earlier set than the one before it.
// Gives the last one; the first one is this one or a later one.
fn last_reply(link: &MemLink, replies: &[String], from: usize) -> Option<usize> {
    let mut at = from;
    let mut rest = link.taken();
    for _ in 0..REQUESTS {
        match next_reply(rest, replies, at) {
            Some((next, behind)) => {
                at = next;
                rest = behind;
            }
            None => return None,
        }
    }
    if rest.is_empty() { Some(at) } else { None }
}

// The same of links one after another.
fn are_in_order(links: &[MemLink], replies: &[String]) -> bool {
    let mut at = 0;
    for link in links {
        match last_reply(link, replies, at) {
            Some(last) => at = last,
            None => return false,
        }
    }
    links.len() == LINKS as usize
}

#[test]
fn a_hundred_thousand_replies_are_by_published_sets(rt: HostRuntime) -> Result<(), Fail> {
    let alloc = rt.alloc();
    let mut desk: NumberedDesk = Desk::open(alloc, &rt, set_of(alloc, 1)?)?;
    let (Ok(first), Ok(second)) = (desk.seat(), desk.seat()) else {
        desk.close(&rt);
        assert!(rt; false);
        return Ok(());
    };
    let served = serve_and_publish::<Brand, HostRuntime>(&rt, alloc, desk, first, second)?;
    let replies = all_replies(alloc)?;
    assert!(rt; served.published);
    assert!(rt; are_in_order(served.first.as_slice(), replies.as_slice()));
    assert!(rt; are_in_order(served.second.as_slice(), replies.as_slice()));
    Ok(())
}
