use crate::connection::{Awaited, Connection};
use mio::unix::SourceFd;
use mio::{Interest, Registry, Token};
use slab::Slab;
use std::alloc::{AllocError, Global};
use std::collections::VecDeque;
use std::io;
use std::os::fd::{AsRawFd, RawFd};
use std::time::Instant;

// How many connections there are at most.
const MOST: usize = 10_000;

// What the listener has in place of a number.
const LISTENER: usize = usize::MAX;

// A place in the table.
#[derive(Drop)]
struct Slot {
    // The connection, unless a worker serves it.
    connection: Option<Connection>,
    // Whether something came that no worker has looked at. Then a connection that waits is in the queue.
    has_news: bool,
}

/// What is to be done next.
#[derive(Drop)]
pub enum News {
    /// Something came on a connection, and it is for a worker to serve.
    Connection(Connection),
    /// A client connects.
    Client,
}

/// All connections of a server. No call but `new` takes memory.
#[derive(Drop)]
pub struct ConnectionTable {
    registry: Registry,
    slots: Slab<Slot>,
    // The numbers of connections on which something came, each once, and the listener's.
    queue: VecDeque<usize>,
}

impl ConnectionTable {
    /// One without connections.
    pub fn new(alloc: Global, registry: Registry) -> Result<ConnectionTable, AllocError> {
        Ok(ConnectionTable {
            registry,
            slots: Slab::with_capacity(alloc, MOST)?,
            queue: VecDeque::with_capacity(alloc, MOST + 1)?,
        })
    }

    /// Has the system tell when a client connects, also where one did before.
    pub fn listen(&self, listener: RawFd) -> io::Result<()> {
        let source = &mut SourceFd(&listener);
        let token = Token(LISTENER);
        match self.registry.reregister(source, token, Interest::READABLE) {
            Ok(()) => Ok(()),
            Err(_) => self.registry.register(source, token, Interest::READABLE),
        }
    }

    /// Notes that something came.
    pub fn note(&mut self, token: Token) {
        let Token(number) = token;
        if number != LISTENER && !self.is_news(number) {
            return;
        }
        let _ = self.queue.push_back(number);
    }

    // Notes that something came on a connection. Says whether it waits and was not noted before.
    fn is_news(&mut self, number: usize) -> bool {
        let Some(slot) = self.slots.get_mut(number) else {
            return false;
        };
        let is_noted = slot.has_news;
        slot.has_news = true;
        !is_noted && slot.connection.is_some()
    }

    /// Whether there is something to do.
    pub fn has_next(&self) -> bool {
        !self.queue.is_empty()
    }

    /// What is to be done next, if anything.
    pub fn next(&mut self) -> Option<News> {
        for _ in 0..self.queue.len() {
            let number = self.queue.pop_front()?;
            if number == LISTENER {
                return Some(News::Client);
            }
            if let Some(connection) = self.take(number) {
                return Some(News::Connection(connection));
            }
        }
        None
    }

    // Takes the connection of a number to serve it.
    fn take(&mut self, number: usize) -> Option<Connection> {
        let slot = self.slots.get_mut(number)?;
        slot.has_news = false;
        slot.connection.take()
    }

    /// Takes a connection that waits from now on, or is over.
    pub fn put(&mut self, connection: Connection) {
        match (connection.number, connection.awaited) {
            (None, Awaited::Nothing) => {}
            (None, _) => self.add(connection),
            (Some(number), Awaited::Nothing) => self.remove(number),
            (Some(number), _) => self.put_back(number, connection),
        }
    }

    // Takes a connection that has a number.
    fn put_back(&mut self, number: usize, connection: Connection) {
        if connection.awaited.may_be_there() {
            let fd = connection.stream.as_raw_fd();
            let source = &mut SourceFd(&fd);
            let asked = self
                .registry
                .reregister(source, Token(number), Interest::READABLE);
            if asked.is_err() {
                return self.remove(number);
            }
        }
        if let Some(slot) = self.slots.get_mut(number) {
            slot.connection = Some(connection);
            if slot.has_news {
                let _ = self.queue.push_back(number);
            }
        }
    }

    // Takes a connection that has no number yet.
    fn add(&mut self, mut connection: Connection) {
        if self.slots.len() >= MOST && !self.drop_oldest() {
            return;
        }
        let fd = connection.stream.as_raw_fd();
        let slot = Slot {
            connection: None,
            has_news: false,
        };
        let Ok(number) = self.slots.insert(slot) else {
            return;
        };
        connection.number = Some(number);
        if let Some(slot) = self.slots.get_mut(number) {
            slot.connection = Some(connection);
        }
        let source = &mut SourceFd(&fd);
        let asked = self
            .registry
            .register(source, Token(number), Interest::READABLE);
        if asked.is_err() {
            self.remove(number);
        }
    }

    // Closes the connection of a number, or forgets one that is closed.
    fn remove(&mut self, number: usize) {
        let _ = self.slots.try_remove(number);
    }

    /// Closes the connection that has waited for the longest time. Says whether there was one.
    pub fn drop_oldest(&mut self) -> bool {
        let mut oldest: Option<(usize, &Connection)> = None;
        for (number, slot) in self.slots.iter() {
            let Some(connection) = slot.idle() else {
                continue;
            };
            match oldest {
                Some((_, other)) if !connection.is_older_than(other) => {}
                _ => oldest = Some((number, connection)),
            }
        }
        let Some((number, _)) = oldest else {
            return false;
        };
        self.remove(number);
        true
    }

    /// Closes each connection that has waited for too long.
    pub fn drop_overdue(&mut self, now: Instant) {
        self.slots.retain(|_, slot| match slot.idle() {
            Some(connection) => !connection.is_overdue(now),
            None => true,
        });
    }
}

impl Slot {
    // The connection, where it waits and nothing came.
    fn idle(&self) -> Option<&Connection> {
        if self.has_news {
            return None;
        }
        self.connection.as_ref()
    }
}
