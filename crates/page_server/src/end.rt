/// Why a link ended.
#[derive(Clone, Copy, Debug, PartialEq, Eq)]
pub enum LinkWhy {
    /// The link's bytes ended between requests: the link answered 0 to a read.
    Closed,
    /// The link's bytes ended within a request: the link answered 0 to a read.
    CutRequest,
    /// A reply with `Connection: close` was written.
    Asked,
    /// A reply with `Connection: close` was written, and it was that to request 10,000.
    Full,
    /// The link failed, and has counted it.
    LinkFault,
    /// Out of memory for the bytes of a request.
    Memory,
}

/// How a link ended.
#[derive(Clone, Copy, Debug, PartialEq, Eq)]
pub struct LinkEnd {
    /// How many requests were answered.
    pub requests: u32,
    /// The number in the last reply, or 0 without one.
    pub last: u64,
    pub why: LinkWhy,
}
