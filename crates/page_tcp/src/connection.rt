use crate::limit::{idle_time, linger, request_time};
use crate::tries::read_some;
use std::io;
use std::io::ErrorKind;
use std::net::{Shutdown, TcpStream};
use std::time::{Clock, Duration, Instant};

// How often what comes at the end of a connection is read at most, once it came.
const LAST_READS: u32 = 64;

/// What a connection waits for while no worker serves it.
#[derive(Clone, Copy)]
pub enum Awaited {
    /// The next request, of which nothing has come.
    Request,
    /// The rest of the head of a request.
    Head,
    /// Its turn. More may have come already, and others go first.
    Turn,
    /// That the client closes it too.
    Close,
    /// Nothing: it is over.
    Nothing,
}

impl Awaited {
    // How long a connection may wait for that.
    fn limit(self) -> Duration {
        match self {
            Awaited::Request => idle_time(),
            Awaited::Head => request_time(),
            Awaited::Turn => idle_time(),
            Awaited::Close => linger(),
            Awaited::Nothing => Duration::from_secs(0),
        }
    }

    /// Whether it may have come before the connection began to wait.
    pub fn may_be_there(self) -> bool {
        match self {
            Awaited::Turn => true,
            Awaited::Close => true,
            _ => false,
        }
    }
}

/// A connection of the system, which does not block while it waits.
#[derive(Drop)]
pub struct Connection {
    pub stream: TcpStream,
    /// Its number in the table of connections, once it is there.
    pub number: Option<usize>,
    /// What it waits for, or has waited for until a worker took it.
    pub awaited: Awaited,
    since: Instant,
}

impl Connection {
    /// One that a client just opened. Fails where it is broken already.
    pub fn new<R: Clock>(stream: TcpStream, clock: &R) -> io::Result<Connection> {
        stream.set_nonblocking(true)?;
        // A reply is one write: it goes out at once, and does not wait for the answer to the one before.
        stream.set_nodelay(true)?;
        Ok(Connection {
            stream,
            number: None,
            awaited: Awaited::Request,
            since: Instant::now(clock)?,
        })
    }

    /// Has it wait for this from now on. The time for the head of a request begins with its first bytes.
    pub fn wait_for<R: Clock>(&mut self, awaited: Awaited, clock: &R) -> io::Result<()> {
        match (self.awaited, awaited) {
            (Awaited::Head, Awaited::Head) => {}
            _ => self.since = Instant::now(clock)?,
        }
        self.awaited = awaited;
        Ok(())
    }

    /// Whether it has waited for too long.
    pub fn is_overdue(&self, now: Instant) -> bool {
        now.duration_since(self.since) > self.awaited.limit()
    }

    /// Whether it has waited for longer than this one.
    pub fn is_older_than(&self, other: &Connection) -> bool {
        self.since < other.since
    }

    /// Ends what is sent. A socket that is closed while bytes are unread resets the connection, and the client may
    /// then lose what was written last: so the connection waits until the client closes it too.
    pub fn hang_up<R: Clock>(&mut self, clock: &R) {
        let is_ended = self.stream.shutdown(Shutdown::Write).is_ok()
            && self.wait_for(Awaited::Close, clock).is_ok();
        if !is_ended {
            self.awaited = Awaited::Nothing;
        }
    }

    /// Reads and drops what came. Says whether more may come.
    pub fn is_still_open(&mut self) -> bool {
        let mut rest = [0; 4096];
        for _ in 0..LAST_READS {
            match read_some(&mut self.stream, &mut rest) {
                Ok(0) => return false,
                Ok(_) => {}
                Err(error) => return error.kind() == ErrorKind::WouldBlock,
            }
        }
        false
    }
}
