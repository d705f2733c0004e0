/// Why serving stopped.
#[derive(Clone, Copy, Debug, PartialEq, Eq)]
pub enum ServeStop {
    /// The net failed, or got back a door that had failed.
    Net,
    /// The spawner failed, and no worker has run.
    Spawn,
    /// A place for a viewer was refused.
    Seat,
    /// The output failed.
    Write,
    /// Out of memory.
    Memory,
}
