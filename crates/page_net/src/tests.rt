use crate::door::{Came, Door};
use crate::gate_link::GateLink;
use crate::link::{Link, write_all};
use crate::mem_door::MemDoor;
use crate::mem_link::MemLink;
use crate::mem_net::MemNet;
use crate::net::Net;
use crate::sure_door::SureDoor;
use crate::sure_link::SureLink;
use crate::sure_net::SureNet;
use page_io::{Bytes, Failed, IoStop, List, Memory};
use std::alloc::Global;
use std::test::Fail;
use std::thread;

// Reads once, into four bytes, and says whether these bytes came.
fn gives<L: Link>(link: &mut L, wanted: &[u8]) -> Result<bool, Failed> {
    let mut buffer = [0; 4];
    let count = link.read(&mut buffer)?;
    let (front, _) = buffer.split_at(count);
    Ok(front == wanted)
}

// Gives back the next link as it came, and says whether one came.
fn send_back<D: Door>(door: &mut D) -> Result<bool, Failed> {
    match door.accept()? {
        Came::Link(link) => {
            door.done(link);
            Ok(true)
        }
        Came::Closed => Ok(false),
    }
}

// Takes a door, sends all its links back, and closes it. Says how many links came.
fn serve_door<N: Net>(alloc: Global, net: &mut N) -> Result<u32, IoStop> {
    let mut door = net.door(alloc, "here:1")?;
    let mut count = 0u32;
    for _ in 0..10 {
        match send_back(&mut door) {
            Ok(true) => count = count.saturating_add(1),
            Ok(false) => break,
            Err(Failed) => break,
        }
    }
    net.close(door);
    Ok(count)
}

fn calls(alloc: Global, numbers: &[u64]) -> Result<List<u64>, Memory> {
    Ok(List::from(numbers.to_vec(alloc)?))
}

fn mem_link(alloc: Global, bytes: &[u8], fail: &[u64]) -> Result<MemLink, Memory> {
    MemLink::new(
        alloc,
        Bytes::copy_of(alloc, bytes)?,
        5,
        3,
        calls(alloc, fail)?,
    )
}

fn sure_link(alloc: Global, bytes: &[u8]) -> Result<SureLink, Memory> {
    Ok(SureLink::new(Bytes::copy_of(alloc, bytes)?, 3))
}

#[test]
fn a_link_over_memory_fails_at_stated_calls(rt: HostRuntime) -> Result<(), Fail> {
    let alloc = rt.alloc();
    let mut link = mem_link(alloc, b"abcd", &[2, 5])?;
    assert!(rt; gives(&mut link, b"abc") == Ok(true));
    assert!(rt; link.write(b"xyz") == Err(Failed));
    link.rest();
    assert!(rt; link.write(b"xyz") == Ok(3));
    assert!(rt; gives(&mut link, b"d") == Ok(true));
    assert!(rt; gives(&mut link, b"") == Err(Failed));
    assert!(rt; gives(&mut link, b"") == Ok(true));
    assert!(rt; link.faults() == 2);
    // Two bytes have room still.
    assert!(rt; write_all(&mut link, b"uvw") == Err(Failed));
    assert!(rt; link.taken() == b"xyzuv".as_slice());
    assert!(rt; link.faults() == 3);
    Ok(())
}

#[test]
fn links_come_in_order_and_go_back(rt: HostRuntime) -> Result<(), Fail> {
    let alloc = rt.alloc();
    let mut links = List::new(alloc);
    links.push(mem_link(alloc, b"one", &[])?)?;
    links.push(mem_link(alloc, b"two", &[])?)?;
    let mut door = MemDoor::new(alloc, links, calls(alloc, &[2])?)?;
    let Ok(Came::Link(mut link)) = door.accept() else {
        assert!(rt; false, "no link came");
        return Ok(());
    };
    assert!(rt; gives(&mut link, b"one") == Ok(true));
    door.done(link);
    assert!(rt; send_back(&mut door) == Err(Failed));
    assert!(rt; send_back(&mut door) == Ok(true));
    assert!(rt; send_back(&mut door) == Ok(false));
    assert!(rt; door.back().len() == 2 && door.faults() == 1);
    Ok(())
}

#[test]
fn a_net_counts_doors_that_failed(rt: HostRuntime) -> Result<(), Fail> {
    let alloc = rt.alloc();
    let mut links = List::new(alloc);
    links.push(mem_link(alloc, b"one", &[])?)?;
    let mut doors = List::new(alloc);
    doors.push(MemDoor::new(alloc, links, List::new(alloc))?)?;
    doors.push(MemDoor::new(alloc, List::new(alloc), calls(alloc, &[1])?)?)?;
    let mut net = MemNet::new(alloc, doors, calls(alloc, &[2])?)?;
    assert!(rt; serve_door(alloc, &mut net) == Ok(1));
    assert!(rt; net.faults() == 0);
    assert!(rt; serve_door(alloc, &mut net) == Err(IoStop::Failed));
    assert!(rt; serve_door(alloc, &mut net) == Ok(0));
    assert!(rt; net.faults() == 2);
    assert!(rt; serve_door(alloc, &mut net) == Err(IoStop::Failed));
    assert!(rt; net.faults() == 3 && net.back().len() == 2);
    Ok(())
}

#[test]
fn a_sure_net_gives_empty_doors_at_last(rt: HostRuntime) -> Result<(), Fail> {
    let alloc = rt.alloc();
    let mut links = List::new(alloc);
    links.push(sure_link(alloc, b"one")?)?;
    links.push(sure_link(alloc, b"two")?)?;
    let mut doors = List::new(alloc);
    doors.push(SureDoor::new(alloc, links)?)?;
    let mut net = SureNet::new(alloc, doors)?;
    assert!(rt; serve_door(alloc, &mut net) == Ok(2));
    assert!(rt; serve_door(alloc, &mut net) == Ok(0));
    assert!(rt; serve_door(alloc, &mut net) == Ok(0));
    assert!(rt; net.back().len() == 3);
    Ok(())
}

#[test]
fn a_read_waits_at_its_gate(rt: HostRuntime) -> Result<(), Fail> {
    let alloc = rt.alloc();
    let mut second = GateLink::opening(alloc, sure_link(alloc, b"two")?)?;
    let mut first = second.waiting(sure_link(alloc, b"one")?, 100)?;
    assert!(rt; gives(&mut first, b"") == Err(Failed));
    assert!(rt; gives(&mut second, b"two") == Ok(true));
    let mut patient = second.waiting(sure_link(alloc, b"three")?, 10_000_000)?;
    let (came, written) = thread::join(
        &rt,
        move || gives(&mut patient, b"thr"),
        move || second.write(b"reply"),
    );
    assert!(rt; written == Ok(3));
    assert!(rt; came == Ok(true));
    assert!(rt; gives(&mut first, b"one") == Ok(true));
    Ok(())
}
