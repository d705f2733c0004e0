ghost use Rattle.std.specs.Prelude.{◌≡◌};

use crate::connections::Connections;
use crate::tcp_door::TcpDoor;
use page_io::IoStop;
use page_net::Net;
use std::alloc::Global;
use std::io::{Eprint, ErrorKind};
use std::net::{SocketAddr, TcpListener, TcpStream};
use std::sync::{Arc, Wait};
use std::time::Clock;
use std::{io, net};

/// The network of the system. It binds at the first call, and all doors share the listener and its connections. It
/// tells nothing of its doors.
#[derive(Drop)]
pub struct TcpNet<'r, R> {
    rt: &'r R,
    connections: Option<Arc<Connections, Global>>,
    faults: u64,
}

impl<'r, R: net::Net<Listener = TcpListener, Stream = TcpStream> + Clock + Wait + Eprint> TcpNet<
    'r,
    R,
> {
    /// A network that has bound no address and has not failed yet.
    pub fn new(rt: &'r R) -> TcpNet<'r, R>
        ensures { ⟦<TcpNet<'r, R> as Net>⟧.faults result ≡ 0 }
    {
        TcpNet {
            rt,
            connections: None,
            faults: 0,
        }
    }

    /// How many calls failed, and how many doors that came back had failed.
    pub fn faults(&self) -> u64
        ensures { ⟦<TcpNet<'r, R> as Net>⟧.faults self.now ≡ result }
    {
        self.faults
    }

    /// The address that was bound, if one was and the system tells it.
    pub fn bound_addr(&self) -> Option<SocketAddr> {
        let connections = self.connections.as_ref()?;
        connections.local_addr().ok()
    }

    // The connections of the listener, which is bound at the first call.
    fn connections(&mut self, alloc: Global, addr: &str) -> io::Result<Arc<Connections, Global>>
        ensures { self.new.faults ≡ self.old.faults }
    {
        if let Some(connections) = &self.connections {
            return Ok(Arc::try_clone(connections)?);
        }
        let listener: TcpListener = TcpListener::bind(self.rt, addr)?;
        let connections = Arc::new(alloc, Connections::new(self.rt, alloc, listener)?)?;
        let shared = Arc::try_clone(&connections)?;
        self.report(&connections);
        self.connections = Some(connections);
        Ok(shared)
    }

    // Writes the address that was bound to the process's standard error: with port 0 the system chose it. A fault of
    // that write is no fault of the net.
    fn report(&self, connections: &Connections) {
        if let Ok(addr) = connections.local_addr() {
            let _ = eprintln!(self.rt; "listening on {addr}");
        }
    }
}

impl<'r, R: net::Net<Listener = TcpListener, Stream = TcpStream> + Clock + Wait + Eprint> Net
    for TcpNet<'r, R> {
    type Door = TcpDoor<'r, R>;

    ghost use Rattle.std.specs.Prelude.{None};

    ghost told = { λ _. None };

    ghost faults = { λ n. n.faults };

    ghost bounded = { λ _. tt };

    fn door(&mut self, alloc: Global, addr: &str) -> Result<TcpDoor<'r, R>, IoStop> {
        match self.connections(alloc, addr) {
            Ok(connections) => Ok(TcpDoor::new(connections, self.rt)),
            Err(error) if error.kind() == ErrorKind::OutOfMemory => Err(IoStop::Memory),
            Err(_) => {
                self.faults = self.faults.saturating_add(1);
                Err(IoStop::Failed)
            }
        }
    }

    fn close(&mut self, door: TcpDoor<'r, R>) {
        if door.faults() > 0 {
            self.faults = self.faults.saturating_add(1);
        }
    }
}
