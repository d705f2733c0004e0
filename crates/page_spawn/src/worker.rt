/// Work that is done once, by one thread.
pub trait Worker {
    /// What the worker leaves.
    type End: Send + Drop;

    // What holds of a worker, as it was before its work, and of its end.
    ghost fulfils: { Self → Self.End → Type 0 };

    /// Does the work. The worker is gone after it.
    fn work(self) -> Self::End
        ensures { fulfils self result };
}
