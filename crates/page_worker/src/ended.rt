use crate::work_end::WorkEnd;

/// How a worker ended.
#[derive(Debug, Drop)]
pub struct Ended<D> {
    pub end: WorkEnd,
    /// The worker's door, as it was left.
    pub door: D,
}
