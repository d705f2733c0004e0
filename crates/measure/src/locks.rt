use crate::looks::{Looks, Publishes, four_beside, one_beside};
use std::alloc::{AllocError, Global};
use std::sync::{Arc, RwLock, Wait};
use std::thread::Threads;

// The set that is published, behind a lock.
type Shelf = RwLock<Arc<u64>>;

// Takes the set from behind the lock, and keeps the last one that was taken.
#[derive(Drop)]
struct Taker<'a> {
    shelf: &'a Shelf,
    kept: Option<Arc<u64>>,
}

impl<'a> Taker<'a> {
    fn new(shelf: &'a Shelf) -> Taker<'a> {
        Taker { shelf, kept: None }
    }
}

impl Looks for Taker<'_> {
    fn look<R: Wait>(&mut self, rt: &R) {
        if let Ok(set) = Arc::try_clone(&*self.shelf.read(rt)) {
            self.kept = Some(set);
        }
    }
}

// Replaces the set behind the lock.
#[derive(Drop)]
struct Putter<'a> {
    shelf: &'a Shelf,
}

impl Publishes for Putter<'_> {
    fn publish<R: Wait>(&mut self, rt: &R, alloc: Global, set: u64) -> bool {
        match Arc::new(alloc, set) {
            Ok(set) => {
                *self.shelf.write(rt) = set;
                true
            }
            Err(_) => false,
        }
    }
}

/// One thread takes the set from behind a lock so often, while another one replaces it as fast as it can.
pub fn one_locks<R: Threads + Wait + Sync>(
    rt: &R,
    alloc: Global,
    looks: usize,
) -> Result<String, AllocError> {
    let shelf = RwLock::new(Arc::new(alloc, 0u64)?);
    one_beside(
        rt,
        alloc,
        &mut Putter { shelf: &shelf },
        Taker::new(&shelf),
        looks,
    )
}

/// Four threads take the set from behind a lock, each so often, while another one replaces it as fast as it can.
pub fn four_lock<R: Threads + Wait + Sync>(
    rt: &R,
    alloc: Global,
    looks: usize,
) -> Result<String, AllocError> {
    let shelf = RwLock::new(Arc::new(alloc, 0u64)?);
    four_beside(
        rt,
        alloc,
        &mut Putter { shelf: &shelf },
        (Taker::new(&shelf), Taker::new(&shelf)),
        (Taker::new(&shelf), Taker::new(&shelf)),
        looks,
    )
}
