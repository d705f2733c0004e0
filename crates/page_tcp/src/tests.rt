use crate::connection::{Awaited, Connection};
use crate::head::holds_head;
use crate::table::ConnectionTable;
use crate::tcp_net::TcpNet;
use mio::Poll;
use page_io::Failed;
use page_net::{Came, Door, Link, Net, write_all};
use std::alloc::Global;
use std::io::{Read, Write};
use std::net::{SocketAddr, TcpListener, TcpStream};
use std::sync::atomic::{AtomicBool, Ordering};
use std::test::Fail;
use std::time::{Clock, Duration, Instant};
use std::{io, net, thread};

// Connects, sends bytes, and says whether the reply is this one, up to the end of the connection.
fn is_answered<R: net::Net<Listener = TcpListener, Stream = TcpStream>>(
    rt: &R,
    alloc: Global,
    addr: SocketAddr,
    sent: &[u8],
    wanted: &[u8],
) -> bool {
    let Ok(mut stream) = TcpStream::connect(rt, addr) else {
        return false;
    };
    if stream.write_all(sent).is_err() {
        return false;
    }
    let mut reply = Vec::new(alloc);
    stream.read_to_end(&mut reply).is_ok() && reply.as_slice() == wanted
}

// Takes the next link, reads four bytes at most, and writes a reply where they are these.
fn answer<D: Door>(door: &mut D, wanted: &[u8]) -> Result<bool, Failed> {
    let Came::Link(mut link) = door.accept()? else {
        return Ok(false);
    };
    let mut buffer = [0; 4];
    let good = match link.read(&mut buffer) {
        Ok(count) => {
            let (front, _) = buffer.split_at(count);
            front == wanted && write_all(&mut link, b"reply").is_ok()
        }
        Err(Failed) => false,
    };
    door.done(link);
    Ok(good)
}

#[test]
fn doors_share_a_listener(rt: HostRuntime) -> Result<(), Fail> {
    let alloc = rt.alloc();
    let mut tcp = TcpNet::new(&rt);
    let mut one = tcp.door(alloc, "127.0.0.1:0")?;
    let mut two = tcp.door(alloc, "127.0.0.1:0")?;
    let Some(addr) = tcp.bound_addr() else {
        assert!(rt; false, "nothing was bound");
        return Ok(());
    };
    let (client, server) = thread::join(
        &rt,
        || is_answered(&rt, alloc, addr, b"ask1", b"reply"),
        || answer(&mut one, b"ask1"),
    );
    assert!(rt; client && server == Ok(true));
    // A client that sent more than was read gets its reply all the same.
    let long = vec![in alloc; b'a'; 65536]?;
    let (client, server) = thread::join(
        &rt,
        || is_answered(&rt, alloc, addr, long.as_slice(), b"reply"),
        || answer(&mut two, b"aaaa"),
    );
    assert!(rt; client && server == Ok(true));
    tcp.close(one);
    tcp.close(two);
    assert!(rt; tcp.faults() == 0);
    Ok(())
}

#[test]
fn a_silent_client_is_cut_off(rt: HostRuntime) -> Result<(), Fail> {
    let alloc = rt.alloc();
    let mut tcp = TcpNet::new(&rt);
    let mut door = tcp.door(alloc, "127.0.0.1:0")?;
    let Some(addr) = tcp.bound_addr() else {
        assert!(rt; false, "nothing was bound");
        return Ok(());
    };
    let (client, server) = thread::join(
        &rt,
        || is_answered(&rt, alloc, addr, b"", b""),
        || answer(&mut door, b""),
    );
    assert!(rt; client && server == Ok(false));
    tcp.close(door);
    // A second net cannot bind the same address: it has failed.
    let mut other = TcpNet::new(&rt);
    let text = format!(in alloc; "{addr}")?;
    assert!(rt; other.door(alloc, text.as_str()).is_err());
    assert!(rt; other.faults() == 1);
    Ok(())
}

// The head of a request, of eighteen bytes.
const HEAD: &[u8; 18] = b"GET / HTTP/1.1\r\n\r\n";

// Serves a link as long as requests come, each with the same reply.
fn serve<L: Link>(link: &mut L) {
    let mut buffer = [0; 64];
    for _ in 0..1000u32 {
        link.rest();
        match link.read(&mut buffer) {
            Ok(0) => return,
            Ok(_) => {}
            Err(Failed) => return,
        }
        if write_all(link, b"reply").is_err() {
            return;
        }
    }
}

// Serves the links of a door until it is over. Says whether the door never failed.
fn serve_until<D: Door>(door: &mut D, is_over: &AtomicBool) -> bool {
    for _ in 0..100_000u32 {
        let Ok(Came::Link(mut link)) = door.accept() else {
            return false;
        };
        serve(&mut link);
        door.done(link);
        if is_over.load(Ordering::SeqCst) {
            return true;
        }
    }
    false
}

// Opens so many connections.
fn connections<R: net::Net<Listener = TcpListener, Stream = TcpStream>>(
    rt: &R,
    alloc: Global,
    addr: SocketAddr,
    count: u32,
) -> io::Result<Vec<TcpStream>> {
    let mut streams = Vec::new(alloc);
    for _ in 0..count {
        streams.push(TcpStream::connect(rt, addr)?)?;
    }
    Ok(streams)
}

// Reads one reply. Says whether it is the wanted one.
fn is_replied(stream: &mut TcpStream) -> io::Result<bool> {
    let mut reply = [0; 5];
    stream.read_exact(&mut reply)?;
    Ok(&reply == b"reply")
}

// Makes a request on each of the connections, one after another.
fn ask_each(streams: &mut [TcpStream]) -> io::Result<bool> {
    for stream in streams {
        stream.write_all(HEAD)?;
        if !is_replied(stream)? {
            return Ok(false);
        }
    }
    Ok(true)
}

// Sends one byte of a request on each of the connections.
fn send_each(streams: &mut [TcpStream], byte: u8) -> io::Result<()> {
    for stream in streams {
        stream.write_all(&[byte])?;
    }
    Ok(())
}

// Whether each of twenty clients gets its replies, while three send a byte now and then, and these in the end too.
fn are_all_served<R: net::Net<Listener = TcpListener, Stream = TcpStream> + Clock>(
    rt: &R,
    alloc: Global,
    addr: SocketAddr,
) -> io::Result<bool> {
    let mut slow = connections(rt, alloc, addr, 3)?;
    let mut idle = connections(rt, alloc, addr, 1)?;
    let mut quick = connections(rt, alloc, addr, 20)?;
    for byte in HEAD {
        send_each(&mut slow, *byte)?;
        if !ask_each(&mut quick)? {
            return Ok(false);
        }
        thread::sleep(rt, Duration::from_millis(500));
    }
    for stream in &mut slow {
        if !is_replied(stream)? {
            return Ok(false);
        }
    }
    ask_each(&mut idle)
}

// The same, and then ends both doors.
fn play_clients<R: net::Net<Listener = TcpListener, Stream = TcpStream> + Clock>(
    rt: &R,
    alloc: Global,
    addr: SocketAddr,
    is_over: &AtomicBool,
) -> bool {
    let served = are_all_served(rt, alloc, addr);
    is_over.store(true, Ordering::SeqCst);
    let last = connections(rt, alloc, addr, 2);
    thread::sleep(rt, Duration::from_millis(500));
    last.is_ok() && served.is_ok_and(|all| all)
}

#[test]
fn more_connections_than_doors(rt: HostRuntime) -> Result<(), Fail> {
    let alloc = rt.alloc();
    let mut tcp = TcpNet::new(&rt);
    let mut one = tcp.door(alloc, "127.0.0.1:0")?;
    let mut two = tcp.door(alloc, "127.0.0.1:0")?;
    let Some(addr) = tcp.bound_addr() else {
        assert!(rt; false, "nothing was bound");
        return Ok(());
    };
    let is_over = AtomicBool::new(false);
    let (client, servers) = thread::join(
        &rt,
        || play_clients(&rt, alloc, addr, &is_over),
        || {
            thread::join(
                &rt,
                || serve_until(&mut one, &is_over),
                || serve_until(&mut two, &is_over),
            )
        },
    );
    assert!(rt; client && servers.0 && servers.1);
    tcp.close(one);
    tcp.close(two);
    assert!(rt; tcp.faults() == 0);
    Ok(())
}

#[test]
fn heads_are_whole(rt: HostRuntime) -> Result<(), Fail> {
    let whole: [&[u8]; 5] = [
        HEAD,
        b"GET / HTTP/1.1\n\n",
        b"\r\n\r\nGET / HTTP/1.1\r\n\r\n",
        b"GET / HTTP/1.1\r\nA: b\r\n\r\nGET /",
        b"\nPOST / HTTP/1.1\r\n\nbody",
    ];
    for bytes in whole {
        assert!(rt; holds_head(bytes));
    }
    let parts: [&[u8]; 6] = [
        b"",
        b"\r\n\r\n",
        b"\n\n\n",
        b"GET / HTTP/1.1\r\n",
        b"GET / HTTP/1.1\r\n\r",
        b"\r\n\r\nGET / HTTP/1.1\r\nA: b\r\n",
    ];
    for bytes in parts {
        assert!(rt; !holds_head(bytes));
    }
    Ok(())
}

#[test]
fn connections_wait_for_a_time(rt: HostRuntime) -> Result<(), Fail> {
    let listener: TcpListener = TcpListener::bind(&rt, "127.0.0.1:0")?;
    let stream: TcpStream = TcpStream::connect(&rt, listener.local_addr()?)?;
    let mut connection = Connection::new(stream, &rt)?;
    let before = Instant::now(&rt)?;
    for (awaited, seconds) in [
        (Awaited::Request, 60),
        (Awaited::Head, 30),
        (Awaited::Close, 1),
    ] {
        connection.wait_for(awaited, &rt)?;
        let Some(early) = before.checked_add(Duration::from_secs(seconds)) else {
            continue;
        };
        let Some(late) = Instant::now(&rt)?.checked_add(Duration::from_secs(seconds + 1)) else {
            continue;
        };
        assert!(rt; !connection.is_overdue(early));
        assert!(rt; connection.is_overdue(late));
    }
    Ok(())
}

// Whether a read of this connection gives its end.
fn is_ended(stream: &mut TcpStream) -> bool {
    let mut buffer = [0; 1];
    stream.read(&mut buffer).is_ok_and(|count| count == 0)
}

#[test]
fn the_oldest_idle_connection_is_closed(rt: HostRuntime) -> Result<(), Fail> {
    let alloc = rt.alloc();
    let poll = Poll::new(&rt)?;
    let mut table = ConnectionTable::new(alloc, poll.registry().try_clone()?)?;
    assert!(rt; !table.drop_oldest());
    let listener: TcpListener = TcpListener::bind(&rt, "127.0.0.1:0")?;
    let mut clients = connections(&rt, alloc, listener.local_addr()?, 3)?;
    for _ in &clients {
        let (stream, _) = listener.accept()?;
        table.put(Connection::new(stream, &rt)?);
    }
    assert!(rt; table.drop_oldest());
    for (number, client) in clients.iter_mut().enumerate() {
        // A read of the others would wait.
        client.set_nonblocking(number > 0)?;
        assert!(rt; is_ended(client) == (number == 0));
    }
    Ok(())
}
