ghost use Rattle.std.specs.Prelude.{◌≡◌};

use crate::desk::Desk;
use crate::named::Named;
use crate::pack_seats::PackSeats;
use crate::seats::{SeatStop, Seats};
use crate::told::Told;
use crate::viewer::Viewer;
use page_io::{List, Memory};
use std::alloc::Global;
use std::marker::Brand;
use std::sync::Wait;
use std::test::Fail;
use std::thread;
use std::thread::Threads;

type NumberDesk = Desk<u64, Told<u64>>;

type NumberViewer = Viewer<u64, Told<u64>>;

// The set that is published with this number.
fn set_of(number: u64) -> u64 {
    number.wrapping_mul(7)
}

// Whether the viewer is at this number, and has the set that was published with it.
fn is_at(viewer: &NumberViewer, number: u64) -> bool {
    viewer.number() == number && *viewer.set() == set_of(number)
}

// Looks so often, and says whether each number was at least the one before, and each set the one of its number.
fn watch(viewer: &mut NumberViewer, looks: u64) -> bool {
    let mut good = true;
    let mut last = viewer.number();
    for _ in 0..looks {
        let number = viewer.current();
        good = good && number >= last && number <= 101 && is_at(viewer, number);
        last = number;
    }
    good
}

// Publishes a hundred sets. A viewer that learns each sees it at once.
fn publish_all<N: Named, R: Wait>(
    rt: &R,
    alloc: Global,
    desk: &mut NumberDesk,
    viewer: &mut NumberViewer,
) -> bool
    requires desk { desk.old.book ≡ N.desk }
    requires viewer { viewer.old.book ≡ N.desk }
{
    let mut good = true;
    for number in 2..102u64 {
        match desk.publish(alloc, rt, set_of(number)) {
            Ok(told) => {
                good = good && told.number() == number && !viewer.known().is_begun_by(&told.known);
                viewer.learn(told);
                good = good && is_at(viewer, number) && viewer.current() == number;
                good = good && is_at(viewer, number);
            }
            Err(_) => good = false,
        }
    }
    good
}

fn run_all<N: Named, R: Threads + Wait + Sync>(
    rt: &R,
    alloc: Global,
    mut desk: NumberDesk,
    mut one: NumberViewer,
    mut two: NumberViewer,
    mut three: NumberViewer,
) -> bool
    requires desk { desk.book ≡ N.desk }
    requires viewer { three.book ≡ N.desk }
{
    let ((first, second), third) = thread::join(
        rt,
        || { thread::join(rt, || watch(&mut one, 1000), || watch(&mut two, 1000)) },
        || publish_all::<N, R>(rt, alloc, &mut desk, &mut three),
    );
    let last = one.current() == 101 && is_at(&one, 101);
    let other = two.current() == 101 && is_at(&two, 101);
    desk.close(rt);
    first && second && third && last && other
}

#[test]
fn numbers_rise_in_threads(rt: HostRuntime) -> Result<(), Fail> {
    let mut desk: NumberDesk = Desk::open(rt.alloc(), &rt, 7u64)?;
    let one = desk.seat();
    let two = desk.seat();
    let three = desk.seat();
    let (Ok(one), Ok(two), Ok(three)) = (one, two, three) else {
        desk.close(&rt);
        return Ok(());
    };
    let good = run_all::<Brand, HostRuntime>(&rt, rt.alloc(), desk, one, two, three);
    assert!(rt; good);
    Ok(())
}

#[test]
fn each_published_set_is_seen(rt: HostRuntime) -> Result<(), Fail> {
    let mut desk: NumberDesk = Desk::open(rt.alloc(), &rt, 7u64)?;
    let mut seats = PackSeats::new(List::new(rt.alloc()));
    let one = seats.seat(&mut desk);
    let two = seats.seat(&mut desk);
    let (Ok(mut one), Ok(mut two)) = (one, two) else {
        desk.close(&rt);
        return Ok(());
    };
    let mut good = is_at(&one, 1) && is_at(&two, 1);
    for number in 2..102u64 {
        good = good && desk.publish(rt.alloc(), &rt, set_of(number)).is_ok();
        good = good && one.current() == number && is_at(&one, number);
        good = good && one.current() == number && is_at(&one, number);
        good = good && two.current() == number && is_at(&two, number);
        good = good && *desk.latest() == set_of(number);
    }
    desk.close(&rt);
    assert!(rt; good);
    // The desk is gone: a viewer keeps its set.
    assert!(rt; one.current() == 101 && is_at(&one, 101));
    Ok(())
}

// A viewer that learns what was told has seen it, and one that looks has too; what is less changes nothing.
#[test]
fn what_is_told_is_seen(rt: HostRuntime) -> Result<(), Fail> {
    let mut desk: NumberDesk = Desk::open(rt.alloc(), &rt, 7u64)?;
    let (Ok(mut one), Ok(mut two)) = (desk.seat(), desk.seat()) else {
        desk.close(&rt);
        return Ok(());
    };
    let second = desk.publish(rt.alloc(), &rt, 14);
    let third = desk.publish(rt.alloc(), &rt, 21);
    let latest = *desk.latest();
    let (Ok(second), Ok(third)) = (second, third) else {
        desk.close(&rt);
        return Ok(());
    };
    let before = is_at(&one, 1) && !one.known().is_begun_by(&second.known) && second.number() == 2;
    let Ok(again) = third.again() else {
        desk.close(&rt);
        return Ok(());
    };
    one.learn(third);
    let learnt = is_at(&one, 3) && one.known().is_begun_by(&second.known);
    let more = one.known().is_begun_by(&again.known) && !two.known().is_begun_by(one.known());
    one.learn(second);
    let kept = is_at(&one, 3) && one.current() == 3 && is_at(&one, 3);
    let unlearnt = is_at(&two, 1) && two.current() == 3 && is_at(&two, 3);
    desk.close(&rt);
    assert!(rt; before && learnt && more && kept && unlearnt);
    assert_eq!(rt; latest, 21);
    Ok(())
}

// The first call is to fail. Then all sixteen places are taken, and the next one is refused until a viewer goes.
#[test]
fn a_place_can_be_refused(rt: HostRuntime) -> Result<(), Fail> {
    let mut fail = List::new(rt.alloc());
    fail.push(1u64)?;
    let mut viewers: Vec<NumberViewer> = Vec::new(rt.alloc());
    let mut seats = PackSeats::new(fail);
    let mut desk: NumberDesk = Desk::open(rt.alloc(), &rt, 7u64)?;
    let mut good = true;
    for call in 1..18u64 {
        good = good && (call == 1 || seats.faults() == 1);
        match seats.seat(&mut desk) {
            Ok(viewer) => {
                good = good && call != 1 && is_at(&viewer, 1);
                good = good && viewers.push(viewer).is_ok();
            }
            Err(stop) => good = good && call == 1 && stop == SeatStop::Failed,
        }
    }
    let refused = matches!(seats.seat(&mut desk), Err(SeatStop::Failed));
    drop(viewers.pop());
    let given = seats.seat(&mut desk).is_ok();
    desk.close(&rt);
    assert!(rt; good && refused && given);
    assert_eq!(rt; (viewers.len(), seats.faults()), (15, 2));
    Ok(())
}

// A publish that finds no memory leaves the list as it was, and the next one has its number: whichever allocation fails.
#[test]
fn a_refused_publish_changes_nothing(rt: HostRuntime) -> Result<(), Fail> {
    let opened: Result<NumberDesk, Memory> = Desk::open(rt.alloc(), &rt, 7u64);
    let Ok(mut desk) = opened else {
        return Ok(());
    };
    let Ok(mut viewer) = desk.seat() else {
        desk.close(&rt);
        return Ok(());
    };
    let mut good = true;
    let mut number = 1u64;
    for _ in 0..6 {
        let next = number.wrapping_add(1);
        if let Ok(told) = desk.publish(rt.alloc(), &rt, set_of(next)) {
            number = told.number();
            good = good && number == next;
        }
        good = good && *desk.latest() == set_of(number);
        good = good && viewer.current() == number && is_at(&viewer, number);
    }
    desk.close(&rt);
    assert!(rt; good && number >= 6);
    Ok(())
}
