ghost use Rattle.std.specs.Prelude.{◌≡◌, ◌<◌, ◌≤◌, IfSome, length};
ghost use Rattle.page_io.specs.Causes.{Rose};

use crate::connection::{Awaited, Connection};
use crate::head::holds_head;
use crate::limit::{Stopwatch, patience, reply_time, request_time};
use crate::tries::{peek_some, read_some, write_some};
use page_io::Failed;
use page_net::Link;
use std::io;
use std::io::ErrorKind;
use std::time::Clock;

// How many requests a client may have served before it is another one's turn.
const TURNS: u32 = 64;

/// A connection of the system, while a worker serves it. It tells nothing of its bytes. A client that is silent for too
/// long within a request, or too slow, has failed. Between requests a link ends where nothing has come yet, and its
/// connection waits for what comes.
#[derive(Drop)]
pub struct TcpLink<'r, R> {
    connection: Connection,
    clock: &'r R,
    // Whether the next read is between two requests.
    rests: bool,
    // Whether the link ended between two requests.
    is_left: bool,
    // Whether reads and writes block.
    blocks: bool,
    turns: u32,
    reading: Stopwatch,
    writing: Stopwatch,
    faults: u64,
}

impl<'r, R: Clock> TcpLink<'r, R> {
    /// A link over this connection that has not failed yet.
    pub fn new(connection: Connection, clock: &'r R) -> TcpLink<'r, R> {
        TcpLink {
            connection,
            clock,
            rests: false,
            is_left: false,
            blocks: false,
            turns: 0,
            reading: Stopwatch::new(),
            writing: Stopwatch::new(),
            faults: 0,
        }
    }

    /// The connection, which waits for what comes where the link ended between two requests, and else for its end.
    pub fn leave(mut self) -> Connection {
        let can_wait = self.unblock();
        let mut connection = self.connection;
        if !can_wait {
            connection.awaited = Awaited::Nothing;
        } else if !self.is_left {
            connection.hang_up(self.clock);
        }
        connection
    }

    // Counts a fault, and gives what the call answers then.
    fn fault(&mut self) -> Failed
        ensures later { self.old.faults ≤ self.new.faults }
        ensures rose { Rose self.old.faults self.new.faults }
    {
        self.faults = self.faults.saturating_add(1);
        Failed
    }

    // What a read between two requests gives. None where it fails.
    fn read_between(&mut self, buf: &mut [u8]) -> Option<usize>
        ensures bound { IfSome result (λ n. n ≤ length buf.new) }
        ensures faults { self.new.faults ≡ self.old.faults }
    {
        if self.turns >= TURNS {
            return self.end_for(Awaited::Turn);
        }
        self.turns += 1;
        if !self.unblock() {
            return None;
        }
        match peek_some(&self.connection.stream, buf) {
            Ok(0) => self.end_for(Awaited::Nothing),
            Ok(count) => self.read_whole(buf, count),
            Err(error) if error.kind() == ErrorKind::WouldBlock => self.end_for(Awaited::Request),
            Err(_) => None,
        }
    }

    // Reads where the head of a request is among so many bytes that came, or they fill what there is room for.
    fn read_whole(&mut self, buf: &mut [u8], count: usize) -> Option<usize>
        requires { count ≤ length buf.old }
        ensures bound { IfSome result (λ n. n ≤ length buf.new) }
        ensures faults { self.new.faults ≡ self.old.faults }
    {
        if count < buf.len() && !holds_head(&buf[..count]) {
            return self.end_for(Awaited::Head);
        }
        self.connection.awaited = Awaited::Request;
        self.read_within(buf)
    }

    // Ends the link, whose connection waits for this. None where the clock cannot be read.
    fn end_for(&mut self, awaited: Awaited) -> Option<usize>
        ensures bound { IfSome result (λ n. n ≡ 0) }
        ensures faults { self.new.faults ≡ self.old.faults }
    {
        self.connection.wait_for(awaited, self.clock).ok()?;
        self.is_left = true;
        Some(0)
    }

    // What a read within a request gives. None where it fails.
    fn read_within(&mut self, buf: &mut [u8]) -> Option<usize>
        ensures bound { IfSome result (λ n. n ≤ length buf.new) }
        ensures faults { self.new.faults ≡ self.old.faults }
    {
        if !self.reading.is_within(self.clock, request_time()) {
            return None;
        }
        match read_some(&mut self.connection.stream, buf) {
            Ok(count) => Some(count),
            Err(error) if error.kind() == ErrorKind::WouldBlock && self.block() => {
                read_some(&mut self.connection.stream, buf).ok()
            }
            Err(_) => None,
        }
    }

    // What a write takes. None where it fails.
    fn write_within(&mut self, bytes: &[u8]) -> Option<usize>
        ensures bound { IfSome result (λ n. n ≤ length bytes.now) }
        ensures progress { IfSome result (λ n. 0 < length bytes.now → 0 < n) }
        ensures faults { self.new.faults ≡ self.old.faults }
    {
        if !self.writing.is_within(self.clock, reply_time()) {
            return None;
        }
        match write_some(&mut self.connection.stream, bytes) {
            Ok(count) => Some(count),
            Err(error) if error.kind() == ErrorKind::WouldBlock && self.block() => {
                write_some(&mut self.connection.stream, bytes).ok()
            }
            Err(_) => None,
        }
    }

    // Has reads and writes wait for the client, for a time. False where they do so already, or the system refuses.
    fn block(&mut self) -> bool
        ensures { self.new.faults ≡ self.old.faults }
    {
        if self.blocks {
            return false;
        }
        self.blocks = self.set_patience().is_ok();
        self.blocks
    }

    // The same to the system.
    fn set_patience(&self) -> io::Result<()> {
        let stream = &self.connection.stream;
        stream.set_read_timeout(Some(patience()))?;
        stream.set_write_timeout(Some(patience()))?;
        stream.set_nonblocking(false)
    }

    // Has reads and writes wait for nobody. False where the system refuses.
    fn unblock(&mut self) -> bool
        ensures { self.new.faults ≡ self.old.faults }
    {
        if self.blocks && self.connection.stream.set_nonblocking(true).is_ok() {
            self.blocks = false;
        }
        !self.blocks
    }
}

impl<'r, R: Clock> Link for TcpLink<'r, R> {
    ghost use Rattle.std.specs.Prelude.{None};

    ghost left = { λ _. None };

    ghost taken = { λ _. None };

    ghost faults = { λ l. l.faults };

    fn read(&mut self, buf: &mut [u8]) -> Result<usize, Failed> {
        self.writing = Stopwatch::new();
        self.is_left = false;
        let count = if self.rests {
            self.rests = false;
            self.read_between(buf)
        } else {
            self.read_within(buf)
        };
        match count {
            Some(count) => Ok(count),
            None => Err(self.fault()),
        }
    }

    fn write(&mut self, bytes: &[u8]) -> Result<usize, Failed> {
        self.reading = Stopwatch::new();
        self.is_left = false;
        match self.write_within(bytes) {
            Some(count) => Ok(count),
            None => Err(self.fault()),
        }
    }

    fn rest(&mut self) {
        self.rests = true;
    }
}
