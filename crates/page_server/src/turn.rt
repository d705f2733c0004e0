use crate::end::LinkWhy;

/// What became of one request.
#[derive(Clone, Copy)]
pub(crate) enum Turn {
    /// It was answered, with a reply of this number.
    Replied(u64),
    /// The same, and the connection ends with the reply.
    Closing(u64),
    /// It was not answered, or not in whole.
    Stopped(LinkWhy),
}
