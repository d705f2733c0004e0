use crate::tcp_door::TcpDoor;
use crate::tcp_link::TcpLink;
use page_net::Sent;
use std::sync::Wait;
use std::time::Clock;

impl<'r, R: Clock + Sync> Sent for TcpLink<'r, R> {}

impl<'r, R: Clock + Wait + Sync> Sent for TcpDoor<'r, R> {}
