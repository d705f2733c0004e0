ghost use Rattle.std.specs.Prelude.{◌≡◌, ◌++◌, OnOk};
ghost use Rattle.page_datum.specs.Lines.{HasPrefix};

use crate::back::Back;
use crate::clerk::Clerk;
use crate::office::Office;
use crate::office_clerk::OfficeClerk;
use page_datum::{Datum, Files, NamedFile, PageEnd, PageStop, Pages, Shown};
use page_io::{Bytes, Folder, IoStop, List, MemFile, MemFolder, Memory, Names, Sink, Text};
use set_publisher::{Desk, Named, Told, Viewer};
use std::alloc::Global;
use std::marker::Brand;
use std::sync::Wait;
use std::test::Fail;
use std::thread;
use std::thread::Threads;

// A set of pages that is made of one file, and has no pages.
#[derive(Drop)]
struct OneFile {
    files: Files,
}

// The files are none, or several.
#[derive(Debug, Drop)]
struct NotOneFile;

// Appends a line.
fn push_line(out: &mut Text, line: &str) -> Result<(), Memory>
    ensures ok { OnOk result (out.new ≡ out.old ++ line.now) }
    ensures prefix { HasPrefix out.old out.new line.now }
{
    out.push_str(line)
}

impl Shown for NotOneFile {
    ghost use Rattle.std.specs.Prelude.{codes, false};

    ghost text = { λ _. codes "refused NotOneFile\n" };

    ghost is_memory = { λ _. false };

    fn lines(&self, out: &mut Text) -> Result<(), Memory> {
        push_line(out, "refused NotOneFile\n")
    }

    fn memory(&self) -> bool {
        false
    }
}

impl Pages for OneFile {
    type Refused = NotOneFile;

    ghost use Rattle.std.specs.Prelude.{◌≡◌, ◌≢◌, length, []};
    ghost use Rattle.page_datum.specs.Execution.{no_root};

    ghost made_of = { λ set. set.files };

    ghost refuses = { λ files. length files.list ≢ 1 };

    ghost execution = { λ _ _ _. record { bytes = []; steps = 0; ending = no_root } };

    ghost is_execution = { λ _ _ _ execution. execution.ending ≡ no_root };

    ghost is_sound = { λ _ _ _ _. ⊥ };

    fn make(_alloc: Global, files: Files) -> Result<OneFile, NotOneFile> {
        if files.list.as_slice().len() == 1 {
            Ok(OneFile { files })
        } else {
            Err(NotOneFile)
        }
    }

    fn page<K: Sink>(
        &self,
        _alloc: Global,
        _root: &str,
        _datum: &Datum,
        _out: &mut K,
    ) -> Result<PageEnd, PageStop> {
        Err(PageStop::NoTemplate)
    }
}

// A folder that changes: whenever it is listed, it is the next of these, the last one first.
#[derive(Drop)]
struct Versions {
    now: MemFolder,
    later: Vec<MemFolder>,
    faults: u64,
}

impl Folder for Versions {
    ghost use Rattle.std.specs.Prelude.{None};

    ghost held = { λ _. None };

    ghost faults = { λ v. v.faults };

    fn list(&mut self, alloc: Global, dir: &str) -> Result<Names, IoStop> {
        if let Some(next) = self.later.pop() {
            self.now = next;
        }
        let names = self.now.list(alloc, dir);
        if let Err(IoStop::Failed) = names {
            self.faults = self.faults.saturating_add(1);
        }
        names
    }

    fn read(&mut self, alloc: Global, dir: &str, name: &str, max: u64) -> Result<Bytes, IoStop> {
        let bytes = self.now.read(alloc, dir, name, max);
        if let Err(IoStop::Failed) = bytes {
            self.faults = self.faults.saturating_add(1);
        }
        bytes
    }
}

type FileDesk = Desk<OneFile, Told<OneFile>>;

type FileViewer = Viewer<OneFile, Told<OneFile>>;

// So many template files of the directory `site`, each with one byte.
fn files(alloc: Global, count: u8) -> Result<List<MemFile>, Memory> {
    let mut files = List::new(alloc);
    for at in 0..count {
        let mut name = Text::copy_of(alloc, "page")?;
        for _ in 0..at {
            name.push_str("s")?;
        }
        name.push_str(".html")?;
        let dir = Text::copy_of(alloc, "site")?;
        let bytes = Bytes::copy_of(alloc, &[at])?;
        files.push(MemFile { dir, name, bytes })?;
    }
    Ok(files)
}

// A folder of so many template files, of which the call of this number fails.
fn folder(alloc: Global, count: u8, fail: u64) -> Result<MemFolder, Memory> {
    let mut calls = List::new(alloc);
    calls.push(fail)?;
    Ok(MemFolder::new(files(alloc, count)?, calls))
}

// A set of one file.
fn first_set(alloc: Global) -> Result<OneFile, Memory> {
    let mut list = List::new(alloc);
    let name = Text::copy_of(alloc, "first.html")?;
    let bytes = Bytes::copy_of(alloc, b"first")?;
    list.push(NamedFile { name, bytes })?;
    let dir = Text::copy_of(alloc, "site")?;
    Ok(OneFile {
        files: Files { dir, list },
    })
}

// The folders of a test, the last one first: broken ones, two that fail, and one with a good set.
fn make_versions(alloc: Global) -> Result<Versions, Memory> {
    let mut later = Vec::new(alloc);
    later.push(folder(alloc, 1, 0)?)?;
    later.push(folder(alloc, 1, 2)?)?;
    later.push(folder(alloc, 1, 1)?)?;
    for broken in 0..20u8 {
        let count = if broken % 4 == 0 { 0 } else { broken % 4 + 1 };
        later.push(folder(alloc, count, 0)?)?;
    }
    Ok(Versions {
        now: folder(alloc, 0, 0)?,
        later,
        faults: 0,
    })
}

// Asks for a reload, and says whether the reply is this one.
fn is_answered<C: Clerk<OneFile, Told<OneFile>, J>, J: Named, R: Wait>(
    rt: &R,
    alloc: Global,
    clerk: &mut C,
    viewer: &mut FileViewer,
    status: u16,
    number: u64,
    body: &str,
) -> bool
    requires { viewer.old.book ≡ J.desk }
    ensures { viewer.new.book ≡ viewer.old.book }
{
    let seen = viewer.current();
    match clerk.answer(alloc, rt, viewer, seen) {
        Ok(verdict) => {
            let reply = verdict.reply();
            let is_body = reply.body.as_slice() == body.as_bytes();
            reply.status == status && reply.number == number && !reply.html && is_body
        }
        Err(Memory) => false,
    }
}

// Whether the viewer finds the set of this number, which is made of a file of this name.
fn finds(viewer: &mut FileViewer, number: u64, name: &str) -> bool
    ensures { viewer.new.book ≡ viewer.old.book }
{
    let found = viewer.current();
    match viewer.set().files.list.as_slice() {
        [file] => found == number && file.name.as_str() == name,
        _ => false,
    }
}

// Twenty broken sets and two faults change nothing, and a good set is published.
fn reload_all<J: Named, R: Wait>(
    rt: &R,
    alloc: Global,
    back: Back<Versions, OneFile, Told<OneFile>, J>,
    mut one: FileViewer,
    mut two: FileViewer,
) -> bool
    requires { one.book ≡ J.desk }
{
    let office = Office::new(back);
    let mut clerk = OfficeClerk::new(&office);
    let refused = "refused NotOneFile\n";
    let mut good = true;
    for _ in 0..20u8 {
        good &= is_answered(rt, alloc, &mut clerk, &mut one, 422, 1, refused);
        good &= finds(&mut one, 1, "first.html") && finds(&mut two, 1, "first.html");
    }
    for _ in 0..2u8 {
        good &= is_answered(rt, alloc, &mut clerk, &mut one, 500, 1, "read fault\n");
        good &= finds(&mut one, 1, "first.html") && finds(&mut two, 1, "first.html");
    }
    good &= is_answered(rt, alloc, &mut clerk, &mut one, 200, 2, "set 2\n");
    good &= one.number() == 2 && finds(&mut one, 2, "page.html");
    good &= finds(&mut two, 2, "page.html");
    let folder = office.close(rt);
    good && folder.faults == 2 && folder.later.is_empty()
}

// By the name of a desk that was just opened.
fn reload_at<J: Named, R: Wait>(
    rt: &R,
    alloc: Global,
    desk: FileDesk,
    folder: Versions,
    dir: Text,
    one: FileViewer,
    two: FileViewer,
) -> bool
    requires desk { desk.book ≡ J.desk }
    requires viewer { one.book ≡ J.desk }
{
    let back: Back<Versions, OneFile, Told<OneFile>, J> = Back::new(desk, folder, dir);
    reload_all(rt, alloc, back, one, two)
}

#[test]
fn broken_sets_change_nothing(rt: HostRuntime) -> Result<(), Fail> {
    let folder = make_versions(rt.alloc())?;
    let dir = Text::copy_of(rt.alloc(), "site")?;
    let first = first_set(rt.alloc())?;
    let mut desk: FileDesk = Desk::open(rt.alloc(), &rt, first)?;
    let (Ok(one), Ok(two)) = (desk.seat(), desk.seat()) else {
        desk.close(&rt);
        return Ok(());
    };
    let good = reload_at::<Brand, HostRuntime>(&rt, rt.alloc(), desk, folder, dir, one, two);
    assert!(rt; good);
    Ok(())
}

// Asks for reloads of a good set, one after another, and says whether each is answered with a
// number that is more than the one before.
fn reload_often<C: Clerk<OneFile, Told<OneFile>, J>, J: Named, R: Wait>(
    rt: &R,
    alloc: Global,
    clerk: &mut C,
    viewer: &mut FileViewer,
) -> bool
    requires { viewer.old.book ≡ J.desk }
{
    let mut good = true;
    let mut last = 1;
    for _ in 0..10u8 {
        let seen = viewer.current();
        match clerk.answer(alloc, rt, viewer, seen) {
            Ok(verdict) => {
                let reply = verdict.reply();
                good &= reply.status == 200 && reply.number > last;
                last = reply.number;
            }
            Err(Memory) => good = false,
        }
    }
    good
}

// Two clerks of one office ask in two threads.
fn reload_beside<J: Named + Send + Sync, R: Threads + Wait + Sync>(
    rt: &R,
    alloc: Global,
    desk: FileDesk,
    folder: MemFolder,
    dir: Text,
    mut one: FileViewer,
    mut two: FileViewer,
) -> bool
    requires desk { desk.book ≡ J.desk }
    requires first { one.book ≡ J.desk }
    requires second { two.book ≡ J.desk }
{
    let back: Back<MemFolder, OneFile, Told<OneFile>, J> = Back::new(desk, folder, dir);
    let office = Office::new(back);
    let mut clerk = OfficeClerk::new(&office);
    let mut other = OfficeClerk::new(&office);
    let (first, second) = thread::join(
        rt,
        || reload_often(rt, alloc, &mut clerk, &mut one),
        || reload_often(rt, alloc, &mut other, &mut two),
    );
    let last = one.current() == 21 && two.current() == 21;
    let _folder = office.close(rt);
    first && second && last
}

#[test]
fn clerks_answer_in_threads(rt: HostRuntime) -> Result<(), Fail> {
    let folder = folder(rt.alloc(), 1, 0)?;
    let dir = Text::copy_of(rt.alloc(), "site")?;
    let first = first_set(rt.alloc())?;
    let mut desk: FileDesk = Desk::open(rt.alloc(), &rt, first)?;
    let (Ok(one), Ok(two)) = (desk.seat(), desk.seat()) else {
        desk.close(&rt);
        return Ok(());
    };
    let good = reload_beside::<Brand, HostRuntime>(&rt, rt.alloc(), desk, folder, dir, one, two);
    assert!(rt; good);
    Ok(())
}

// After each answer, also where memory runs out, the viewer that asked has seen the whole list.
fn reload_short<J: Named, R: Wait>(
    rt: &R,
    alloc: Global,
    desk: FileDesk,
    folder: MemFolder,
    dir: Text,
    mut one: FileViewer,
    mut two: FileViewer,
) -> bool
    requires desk { desk.book ≡ J.desk }
    requires viewer { one.book ≡ J.desk }
{
    let back: Back<MemFolder, OneFile, Told<OneFile>, J> = Back::new(desk, folder, dir);
    let office = Office::new(back);
    let mut clerk = OfficeClerk::new(&office);
    let mut good = true;
    for _ in 0..6u8 {
        let seen = one.number();
        let next = seen.wrapping_add(1);
        match clerk.answer(alloc, rt, &mut one, seen) {
            Ok(_) => good &= one.number() == next,
            Err(Memory) => good &= one.number() == seen || one.number() == next,
        }
        good &= two.current() == one.number();
    }
    let _folder = office.close(rt);
    good
}

#[test]
fn a_viewer_has_seen_what_was_published(rt: HostRuntime) -> Result<(), Fail> {
    let folder = folder(rt.alloc(), 1, 0)?;
    let dir = Text::copy_of(rt.alloc(), "site")?;
    let first = first_set(rt.alloc())?;
    let mut desk: FileDesk = Desk::open(rt.alloc(), &rt, first)?;
    let (Ok(one), Ok(two)) = (desk.seat(), desk.seat()) else {
        desk.close(&rt);
        return Ok(());
    };
    let good = reload_short::<Brand, HostRuntime>(&rt, rt.alloc(), desk, folder, dir, one, two);
    assert!(rt; good);
    Ok(())
}
