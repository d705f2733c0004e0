use page_http::Reply;
use page_io::Memory;

/// What goes out to a piece of the bytes.
#[derive(Drop)]
pub(crate) struct Outgoing {
    /// The reply; where memory ran out the reply 503 takes its place.
    pub reply: Result<Reply, Memory>,
    /// Whether the connection ends with the reply.
    pub close: bool,
    /// The number of the reply 503.
    pub number: u64,
    /// How many bytes are answered.
    pub used: usize,
}
