ghost use Rattle.std.specs.Prelude.{◌≡◌};

use crate::connections::Connections;
use crate::tcp_link::TcpLink;
use page_io::Failed;
use page_net::{Came, Door};
use std::alloc::Global;
use std::sync::{Arc, Wait};
use std::time::Clock;

/// One worker's handle of the connections of a server, which workers share. It tells nothing of its links, and is never
/// closed.
#[derive(Drop)]
pub struct TcpDoor<'r, R: Clock + Wait> {
    connections: Arc<Connections, Global>,
    rt: &'r R,
    faults: u64,
}

impl<'r, R: Clock + Wait> TcpDoor<'r, R> {
    /// A door to these connections that has not failed yet.
    pub(crate) fn new(connections: Arc<Connections, Global>, rt: &'r R) -> TcpDoor<'r, R>
        ensures { ⟦<TcpDoor<'r, R> as Door>⟧.faults result ≡ 0 }
    {
        TcpDoor {
            connections,
            rt,
            faults: 0,
        }
    }

    /// How many calls failed.
    pub fn faults(&self) -> u64
        ensures { ⟦<TcpDoor<'r, R> as Door>⟧.faults self.now ≡ result }
    {
        self.faults
    }
}

impl<'r, R: Clock + Wait> Door for TcpDoor<'r, R> {
    type Link = TcpLink<'r, R>;

    ghost use Rattle.std.specs.Prelude.{None};

    ghost told = { λ _. None };

    ghost faults = { λ d. d.faults };

    ghost bounded = { λ _. tt };

    fn accept(&mut self) -> Result<Came<TcpLink<'r, R>>, Failed> {
        match self.connections.next(self.rt) {
            Some(connection) => Ok(Came::Link(TcpLink::new(connection, self.rt))),
            None => {
                self.faults = self.faults.saturating_add(1);
                Err(Failed)
            }
        }
    }

    fn done(&mut self, link: TcpLink<'r, R>) {
        self.connections.put(self.rt, link.leave());
    }
}
