use page_io::Memory;
use set_publisher::{Desk, Told, Viewer};
use std::alloc::{AllocError, Global};
use std::sync::Wait;
use std::sync::atomic::{AtomicBool, Ordering};
use std::thread;
use std::thread::Threads;

/// Who looks at what another thread publishes.
pub trait Looks {
    /// Looks once.
    fn look<R: Wait>(&mut self, rt: &R);
}

/// Who publishes.
pub trait Publishes {
    /// Publishes a set. It is false where memory is out.
    fn publish<R: Wait>(&mut self, rt: &R, alloc: Global, set: u64) -> bool;
}

type CountingDesk = Desk<u64, Told<u64>>;

type CountingViewer = Viewer<u64, Told<u64>>;

impl Looks for CountingViewer {
    fn look<R: Wait>(&mut self, _rt: &R) {
        let _number = self.current();
    }
}

impl Publishes for CountingDesk {
    fn publish<R: Wait>(&mut self, rt: &R, alloc: Global, set: u64) -> bool {
        self.publish(alloc, rt, set).is_ok()
    }
}

/// The looks of one viewer, while another thread publishes as fast as it can.
pub fn one_looks<R: Threads + Wait + Sync>(
    rt: &R,
    alloc: Global,
    looks: usize,
) -> Result<String, AllocError> {
    let mut desk = opened(rt, alloc)?;
    let Ok(one) = desk.seat() else {
        desk.close(rt);
        return Err(AllocError);
    };
    let counts = one_beside(rt, alloc, &mut desk, one, looks);
    desk.close(rt);
    counts
}

/// The looks of four viewers, each of which looks so often, while another thread publishes as fast as it can.
pub fn four_look<R: Threads + Wait + Sync>(
    rt: &R,
    alloc: Global,
    looks: usize,
) -> Result<String, AllocError> {
    let mut desk = opened(rt, alloc)?;
    let (Ok(one), Ok(two), Ok(three), Ok(four)) = (
        desk.seat(),
        desk.seat(),
        desk.seat(),
        desk.seat(),
    ) else {
        desk.close(rt);
        return Err(AllocError);
    };
    let counts = four_beside(rt, alloc, &mut desk, (one, two), (three, four), looks);
    desk.close(rt);
    counts
}

fn opened<R: Wait>(rt: &R, alloc: Global) -> Result<CountingDesk, AllocError> {
    match Desk::open(alloc, rt, 0u64) {
        Ok(desk) => Ok(desk),
        Err(Memory) => Err(AllocError),
    }
}

/// One thread looks so often, while another one publishes as fast as it can.
pub fn one_beside<R: Threads + Wait + Sync, L: Looks + Send + Drop, P: Publishes + Send>(
    rt: &R,
    alloc: Global,
    publisher: &mut P,
    one: L,
    looks: usize,
) -> Result<String, AllocError> {
    let done = AtomicBool::new(false);
    let ((), published) = thread::join(
        rt,
        || {
            look(rt, one, looks);
            done.store(true, Ordering::SeqCst)
        },
        || publish(rt, alloc, publisher, &done),
    );
    format!(in alloc; "{looks} looks, {published} sets")
}

/// Four threads look, each so often, while another one publishes as fast as it can.
pub fn four_beside<R: Threads + Wait + Sync, L: Looks + Send + Drop, P: Publishes + Send>(
    rt: &R,
    alloc: Global,
    publisher: &mut P,
    front: (L, L),
    back: (L, L),
    looks: usize,
) -> Result<String, AllocError> {
    let done = AtomicBool::new(false);
    let ((), published) = thread::join(
        rt,
        || {
            let ((), ()) = thread::join(
                rt,
                || two_look(rt, front, looks),
                || two_look(rt, back, looks),
            );
            done.store(true, Ordering::SeqCst)
        },
        || publish(rt, alloc, publisher, &done),
    );
    format!(in alloc; "4 times {looks} looks, {published} sets")
}

fn two_look<R: Threads + Wait + Sync, L: Looks + Send + Drop>(
    rt: &R,
    readers: (L, L),
    looks: usize,
) {
    let (one, two) = readers;
    let ((), ()) = thread::join(rt, || look(rt, one, looks), || look(rt, two, looks));
}

fn look<R: Wait, L: Looks + Drop>(rt: &R, mut reader: L, looks: usize) {
    for _ in 0..looks {
        reader.look(rt);
    }
}

// Publishes until the looks are done or memory is out, and says how many sets.
fn publish<R: Wait, P: Publishes>(
    rt: &R,
    alloc: Global,
    publisher: &mut P,
    done: &AtomicBool,
) -> u64 {
    let mut published = 0u64;
    for _ in rt.forever() {
        if done.load(Ordering::SeqCst) || !publisher.publish(rt, alloc, published) {
            break;
        }
        published = published.wrapping_add(1);
    }
    published
}
