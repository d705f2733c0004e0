use std::io::{Error, ErrorKind};
use std::net::{TcpListener, TcpStream};

// Linux's numbers of errors that concern one client, and not the listener (accept(2)): EPERM, ENONET, EPROTO,
// ENOPROTOOPT, EOPNOTSUPP, ENETDOWN, ENETUNREACH, ECONNRESET, EHOSTDOWN, EHOSTUNREACH.
const OF_ONE_CLIENT: [i32; 10] = [1, 64, 71, 92, 95, 100, 101, 104, 112, 113];

// Linux's numbers of errors that pass when other connections end: ENOMEM, ENFILE, EMFILE, ENOBUFS.
const SHORTAGES: [i32; 4] = [12, 23, 24, 105];

/// What a listener that does not block gives.
#[derive(Drop)]
pub enum Accepted {
    /// A connection. More may have come.
    Stream(TcpStream),
    /// No connection has come.
    Nothing,
    /// One client went away. More may have come.
    Lost,
    /// The system is short of descriptors or memory for the connection that has come.
    Short,
    /// The listener is of no use any more.
    Broken,
}

/// The next connection of a listener that does not block.
pub fn accept_one(listener: &TcpListener) -> Accepted {
    match listener.accept() {
        Ok((stream, _)) => Accepted::Stream(stream),
        Err(error) => without_stream(&error),
    }
}

// What an error of a listener means.
fn without_stream(error: &Error) -> Accepted {
    match error.kind() {
        ErrorKind::WouldBlock => return Accepted::Nothing,
        ErrorKind::Interrupted => return Accepted::Lost,
        ErrorKind::ConnectionAborted => return Accepted::Lost,
        _ => {}
    }
    match error.raw_os_error() {
        Some(code) if SHORTAGES.as_slice().contains(&code) => Accepted::Short,
        Some(code) if OF_ONE_CLIENT.as_slice().contains(&code) => Accepted::Lost,
        _ => Accepted::Broken,
    }
}
