use std::time::{Clock, Duration, Instant};

/// How long a client may be silent in one read, and how long it may take nothing in one write.
pub fn patience() -> Duration {
    Duration::from_secs(5)
}

/// How long all reads between two writes may take: a client that sends a byte now and then is cut off too. The head
/// of a request, for which no worker waits, may take as long.
pub fn request_time() -> Duration {
    Duration::from_secs(30)
}

/// How long all writes between two reads may take: a client that takes a byte now and then is cut off too.
pub fn reply_time() -> Duration {
    Duration::from_secs(300)
}

/// How long a connection may be idle between two requests.
pub fn idle_time() -> Duration {
    Duration::from_secs(60)
}

/// How long a client may take to close a connection that is over.
pub fn linger() -> Duration {
    Duration::from_secs(1)
}

/// How often connections are looked through for those that waited for too long.
pub fn round() -> Duration {
    Duration::from_secs(1)
}

/// A stopwatch of the calls in one direction. It begins with the first of them.
#[derive(Clone, Copy)]
pub struct Stopwatch {
    start: Option<Instant>,
}

impl Stopwatch {
    /// One that has not begun.
    pub fn new() -> Stopwatch {
        Stopwatch { start: None }
    }

    /// Begins where it has not begun. Says whether no more than this time has passed since then. Where the clock
    /// cannot be read, too much has passed.
    pub fn is_within<R: Clock>(&mut self, clock: &R, limit: Duration) -> bool {
        let Ok(now) = Instant::now(clock) else {
            return false;
        };
        let start = self.start.unwrap_or(now);
        self.start = Some(start);
        now.duration_since(start) <= limit
    }
}
