use crate::accepting::{Accepted, accept_one};
use crate::connection::{Awaited, Connection};
use crate::limit::round;
use crate::table::{ConnectionTable, News};
use mio::{Events, Poll};
use std::alloc::Global;
use std::io;
use std::net::{Net, SocketAddr, TcpListener, TcpStream};
use std::os::fd::AsRawFd;
use std::sync::{Mutex, Wait};
use std::time::{Clock, Instant};

// How many connections the system tells of at once.
const EVENTS: usize = 64;

// What waits for the system to tell on which connections something came.
#[derive(Drop)]
struct Poller {
    poll: Poll,
    events: Events,
    // When overdue connections were last closed.
    swept: Instant,
}

/// The listener of a server and its connections, for all doors. Any worker may serve any connection: one worker at a
/// time waits for the system, and the others wait for it.
#[derive(Drop)]
pub struct Connections {
    listener: TcpListener,
    table: Mutex<ConnectionTable>,
    poller: Mutex<Poller>,
}

impl Connections {
    /// Those of a listener. There are none yet.
    pub fn new<R: Net + Clock>(
        rt: &R,
        alloc: Global,
        listener: TcpListener,
    ) -> io::Result<Connections> {
        listener.set_nonblocking(true)?;
        let poll = Poll::new(rt)?;
        let table = ConnectionTable::new(alloc, poll.registry().try_clone()?)?;
        table.listen(listener.as_raw_fd())?;
        let poller = Poller {
            poll,
            events: Events::with_capacity(alloc, EVENTS)?,
            swept: Instant::now(rt)?,
        };
        Ok(Connections {
            listener,
            table: Mutex::new(table),
            poller: Mutex::new(poller),
        })
    }

    /// The address of the listener.
    pub fn local_addr(&self) -> io::Result<SocketAddr> {
        self.listener.local_addr()
    }

    /// The next connection on which something came. It waits for one. None where the system does not tell any more.
    pub fn next<R: Clock + Wait>(&self, rt: &R) -> Option<Connection> {
        for _ in rt.forever() {
            let news = self.news(rt);
            let found = match news {
                Some(News::Connection(connection)) => self.greet(rt, connection),
                Some(News::Client) => self.accept(rt)?,
                None => {
                    self.wait(rt)?;
                    None
                }
            };
            if found.is_some() {
                return found;
            }
        }
        unreachable!()
    }

    // What is to be done next, if anything.
    fn news<R: Wait>(&self, rt: &R) -> Option<News> {
        let mut guard = self.table.lock(rt);
        let table = &mut *guard;
        table.next()
    }

    /// Takes a connection that waits from now on, or is over.
    pub fn put<R: Wait>(&self, rt: &R, connection: Connection) {
        let mut guard = self.table.lock(rt);
        let table = &mut *guard;
        table.put(connection);
    }

    // A connection on which something came, unless it is being closed.
    fn greet<R: Wait>(&self, rt: &R, mut connection: Connection) -> Option<Connection> {
        let Awaited::Close = connection.awaited else {
            return Some(connection);
        };
        if !connection.is_still_open() {
            connection.awaited = Awaited::Nothing;
        }
        self.put(rt, connection);
        None
    }

    // The connection of a client that connects, unless it is gone. None where the listener is of no use any more.
    fn accept<R: Clock + Wait>(&self, rt: &R) -> Option<Option<Connection>> {
        match accept_one(&self.listener) {
            Accepted::Stream(stream) => {
                self.listen(rt)?;
                Some(Connection::new(stream, rt).ok())
            }
            Accepted::Nothing => Some(None),
            Accepted::Lost => {
                self.listen(rt)?;
                Some(None)
            }
            Accepted::Short => {
                self.make_room(rt)?;
                Some(None)
            }
            Accepted::Broken => None,
        }
    }

    // Has the system tell when a client connects. None where it does not.
    fn listen<R: Wait>(&self, rt: &R) -> Option<()> {
        let guard = self.table.lock(rt);
        guard.listen(self.listener.as_raw_fd()).ok()
    }

    // Closes one connection for the client that connects. Where none waits, it asks again in the next round.
    fn make_room<R: Wait>(&self, rt: &R) -> Option<()> {
        let mut guard = self.table.lock(rt);
        let table = &mut *guard;
        if table.drop_oldest() {
            return table.listen(self.listener.as_raw_fd()).ok();
        }
        Some(())
    }

    // Waits until the system tells something, for one round at most. None where it does not tell any more.
    fn wait<R: Clock + Wait>(&self, rt: &R) -> Option<()> {
        let mut guard = self.poller.lock(rt);
        let poller = &mut *guard;
        // Another worker may have waited before, and have left something to do.
        if self.table.lock(rt).has_next() {
            return Some(());
        }
        poller.poll.poll(&mut poller.events, Some(round())).ok()?;
        let now = Instant::now(rt).ok()?;
        let mut table_guard = self.table.lock(rt);
        let table = &mut *table_guard;
        for event in poller.events.iter() {
            table.note(event.token());
        }
        if now.duration_since(poller.swept) >= round() {
            poller.swept = now;
            table.drop_overdue(now);
            table.listen(self.listener.as_raw_fd()).ok()?;
        }
        Some(())
    }
}
