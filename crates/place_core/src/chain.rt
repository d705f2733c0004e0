use crate::san::San;

/// What is done to a value of data, one after the other.
#[derive(Clone, Copy, Debug, Drop, PartialEq, Eq)]
pub struct Chain {
    /// How many of `sans` count.
    pub count: u8,
    /// The sanitizers, the first one first; after those that count, the last of them stands again.
    pub sans: [San; 3],
}
