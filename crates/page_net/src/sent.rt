use crate::gate_link::GateLink;
use crate::link::Link;
use crate::mem_door::MemDoor;
use crate::mem_link::MemLink;
use crate::sure_door::SureDoor;
use crate::sure_link::SureLink;

/// A type whose values may be handed to a thread.
pub trait Sent: Send {}

impl Sent for MemLink {}

impl Sent for SureLink {}

impl Sent for GateLink {}

impl<L: Link + Send> Sent for MemDoor<L> {}

impl<L: Link + Send> Sent for SureDoor<L> {}
