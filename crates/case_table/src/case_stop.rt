use page_io::Memory;
use std::alloc::{AllocError, AllocFailed};

/// Why cases cannot be run.
#[derive(Clone, Copy)]
pub enum CaseStop {
    /// A table, a group or a row has another form than `docs/CASES.md` says.
    Form,
    /// Out of memory.
    Memory,
}

impl From<Memory> for CaseStop {
    fn from(_error: Memory) -> CaseStop {
        CaseStop::Memory
    }
}

impl From<AllocError> for CaseStop {
    fn from(_error: AllocError) -> CaseStop {
        CaseStop::Memory
    }
}

impl<T: Drop> From<AllocFailed<T>> for CaseStop {
    fn from(_error: AllocFailed<T>) -> CaseStop {
        CaseStop::Memory
    }
}
