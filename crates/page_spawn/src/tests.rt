ghost use Rattle.std.specs.Prelude.{◌≡◌, ◌+◌};

use super::*;
use page_io::List;
use std::alloc::{AllocError, Global};
use std::sync::atomic::{AtomicU64, Ordering};
use std::sync::{OnceLock, Wait};
use std::test::Fail;
use std::thread;

// How often a worker looks before it gives up.
const TURNS: u32 = 10_000_000;

// Ends with its number and one more.
#[derive(Drop)]
struct Adder {
    number: u32,
}

impl Worker for Adder {
    type End = u64;

    ghost fulfils = { λ adder end. end ≡ adder.number + 1 };

    fn work(self) -> u64 {
        u64::from(self.number) + 1
    }
}

fn adders(alloc: Global) -> Result<List<Adder>, AllocError> {
    let workers = vec![in alloc;
        Adder { number: 1 },
        Adder { number: 5 },
        Adder { number: 3 },
    ]?;
    Ok(List::from(workers))
}

// Whether these are the workers of `adders`, in their order.
fn are_adders(workers: &List<Adder>) -> bool {
    let all = workers.as_slice();
    all.len() == 3 && all[0].number == 1 && all[1].number == 5 && all[2].number == 3
}

// What a call answered.
#[derive(Clone, Copy, Debug, PartialEq, Eq)]
enum Said {
    Ends,
    Failed,
    Memory,
    Other,
}

// Runs the workers of `adders`, by the trait alone.
fn run_adders<S: Spawner>(spawner: &mut S, alloc: Global) -> Result<Said, AllocError> {
    Ok(match spawner.run(alloc, adders(alloc)?) {
        Ok(ends) if ends.as_slice() == [2, 6, 4].as_slice() => Said::Ends,
        Err(SpawnStop::Failed(back)) if are_adders(&back) => Said::Failed,
        Err(SpawnStop::Memory(back)) if are_adders(&back) => Said::Memory,
        _ => Said::Other,
    })
}

#[test]
fn ends_come_in_the_order_of_the_workers(rt: HostRuntime) -> Result<(), Fail> {
    let alloc = rt.alloc();
    let mut sure: SureSpawner<HostRuntime> = SureSpawner::new();
    let mut inline: InlineSpawner<HostRuntime> = InlineSpawner::new(List::new(alloc));
    assert_eq!(rt; run_adders(&mut sure, alloc)?, Said::Ends);
    assert_eq!(rt; run_adders(&mut inline, alloc)?, Said::Ends);
    assert_eq!(rt;
        run_adders(&mut ThreadSpawner::new(&rt), alloc)?,
        Said::Ends
    );
    Ok(())
}

// The calls with the stated numbers fail, and no others.
#[test]
fn a_fault_gives_all_workers_back(rt: HostRuntime) -> Result<(), Fail> {
    let alloc = rt.alloc();
    let fail = List::from(vec![in alloc; 1u64, 3]?);
    let mut spawner: InlineSpawner<HostRuntime> = InlineSpawner::new(fail);
    for wanted in [Said::Failed, Said::Ends, Said::Failed, Said::Ends] {
        assert_eq!(rt; run_adders(&mut spawner, alloc)?, wanted);
    }
    Ok(())
}

// Counts itself among those that have begun, and then looks until so many have, or `turns` times.
// It ends with how many it saw.
#[derive(Drop)]
struct Meeter<'g> {
    begun: &'g AtomicU64,
    wanted: u64,
    turns: u32,
}

impl<'g> Worker for Meeter<'g> {
    ghost use Rattle.std.specs.Prelude.{⊤};

    type End = u64;

    ghost fulfils = { λ _ _. ⊤ };

    fn work(self) -> u64 {
        self.begun.fetch_add(1, Ordering::SeqCst);
        let mut seen = 0;
        for _ in 0..self.turns {
            seen = self.begun.load(Ordering::SeqCst);
            if seen >= self.wanted {
                break;
            }
            thread::yield_now();
        }
        seen
    }
}

// How many each of three workers saw begin, which waits for as many as are wanted of it.
fn meet<S: Spawner>(
    spawner: &mut S,
    alloc: Global,
    wanted: [u64; 3],
    turns: u32,
) -> Result<Vec<u64>, AllocError> {
    let count = AtomicU64::new(0);
    let begun = &count;
    let [first, second, third] = wanted;
    let workers = vec![in alloc;
        Meeter {
            begun,
            wanted: first,
            turns
        },
        Meeter {
            begun,
            wanted: second,
            turns
        },
        Meeter {
            begun,
            wanted: third,
            turns
        },
    ]?;
    match spawner.run(alloc, List::from(workers)) {
        Ok(ends) => Ok(ends.into_vec()),
        Err(_) => Err(AllocError),
    }
}

#[test]
fn three_threads_run_at_once(rt: HostRuntime) -> Result<(), Fail> {
    let alloc = rt.alloc();
    let seen = meet(&mut ThreadSpawner::new(&rt), alloc, [3, 3, 3], TURNS)?;
    assert_eq!(rt; seen.as_slice(), [3, 3, 3].as_slice());
    Ok(())
}

// One after another the first two do not see the third begin.
#[test]
fn one_after_another_they_do_not_meet(rt: HostRuntime) -> Result<(), Fail> {
    let alloc = rt.alloc();
    let mut spawner: SureSpawner<HostRuntime> = SureSpawner::new();
    let seen = meet(&mut spawner, alloc, [3, 3, 3], 2)?;
    assert_eq!(rt; seen.as_slice(), [1, 2, 3].as_slice());
    Ok(())
}

// Writes a number, or sleeps until there is one. It ends with the number.
#[derive(Drop)]
struct Sleeper<'r, R: Wait + Sync> {
    rt: &'r R,
    number: &'r OnceLock<u64>,
    writes: bool,
}

impl<'r, R: Wait + Sync> Worker for Sleeper<'r, R> {
    ghost use Rattle.std.specs.Prelude.{⊤};

    type End = u64;

    ghost fulfils = { λ _ _. ⊤ };

    fn work(self) -> u64 {
        if self.writes {
            let _written = self.number.set(self.rt, 7);
        }
        *self.number.wait(self.rt)
    }
}

// The first worker sleeps until the second one wakes it.
#[test]
fn a_worker_may_wait_for_another(rt: HostRuntime) -> Result<(), Fail> {
    let alloc = rt.alloc();
    let lock = OnceLock::new();
    let number = &lock;
    let workers = vec![in alloc;
        Sleeper {
            rt: &rt,
            number,
            writes: false
        },
        Sleeper {
            rt: &rt,
            number,
            writes: true
        },
    ]?;
    match ThreadSpawner::new(&rt).run(alloc, List::from(workers)) {
        Ok(ends) => assert_eq!(rt; ends.as_slice(), [7, 7].as_slice()),
        Err(_) => panic!(rt; "stopped"),
    }
    Ok(())
}

// Without workers there are no ends.
#[test]
fn no_worker_has_no_end(rt: HostRuntime) -> Result<(), Fail> {
    let alloc = rt.alloc();
    let none: List<Adder> = List::new(alloc);
    match ThreadSpawner::new(&rt).run(alloc, none) {
        Ok(ends) => assert!(rt; ends.as_slice().is_empty()),
        Err(_) => panic!(rt; "stopped"),
    }
    Ok(())
}
