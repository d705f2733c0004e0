use std::alloc::{AllocError, AllocFailed};

/// Out of memory.
#[derive(Clone, Copy, Debug, PartialEq, Eq)]
pub struct Memory;

impl From<AllocError> for Memory {
    fn from(_error: AllocError) -> Memory {
        Memory
    }
}

impl<T: Drop> From<AllocFailed<T>> for Memory {
    fn from(_error: AllocFailed<T>) -> Memory {
        Memory
    }
}

/// A call on a device that failed. The device has counted it.
#[derive(Clone, Copy, Debug, PartialEq, Eq)]
pub struct Failed;

/// Why a call on a device that takes memory stopped.
#[derive(Clone, Copy, Debug, PartialEq, Eq)]
pub enum IoStop {
    /// The device failed, and has counted it.
    Failed,
    /// Out of memory.
    Memory,
}

impl From<Failed> for IoStop {
    ghost use Rattle.std.specs.Prelude.{◌≡◌};
    ghost use Rattle.page_io.specs.declared.stop.IoStop.TheVariants as stop;

    ghost from_gives = { λ _ e. e ≡ stop.Failed };

    fn from(_failed: Failed) -> IoStop {
        IoStop::Failed
    }
}

impl From<Memory> for IoStop {
    ghost use Rattle.std.specs.Prelude.{◌≡◌};
    ghost use Rattle.page_io.specs.declared.stop.IoStop.TheVariants as stop;

    ghost from_gives = { λ _ e. e ≡ stop.Memory };

    fn from(_memory: Memory) -> IoStop {
        IoStop::Memory
    }
}

impl From<AllocError> for IoStop {
    ghost use Rattle.std.specs.Prelude.{◌≡◌};
    ghost use Rattle.page_io.specs.declared.stop.IoStop.TheVariants as stop;

    ghost from_gives = { λ _ e. e ≡ stop.Memory };

    fn from(_error: AllocError) -> IoStop {
        IoStop::Memory
    }
}

impl<T: Drop> From<AllocFailed<T>> for IoStop {
    ghost use Rattle.std.specs.Prelude.{◌≡◌};
    ghost use Rattle.page_io.specs.declared.stop.IoStop.TheVariants as stop;

    ghost from_gives = { λ _ e. e ≡ stop.Memory };

    fn from(_error: AllocFailed<T>) -> IoStop {
        IoStop::Memory
    }
}

/// Why a call stopped: a cause of its own, or out of memory.
#[derive(Clone, Copy, Debug, PartialEq, Eq, Drop)]
pub enum Stop<W> {
    /// The call's own cause.
    Cause(W),
    /// Out of memory.
    Memory,
}

impl<W> From<Memory> for Stop<W> {
    ghost use Rattle.std.specs.Prelude.{◌≡◌};
    ghost use Rattle.page_io.specs.declared.stop.Stop.TheVariants as stop;

    ghost from_gives = { λ _ e. e ≡ stop.Memory };

    fn from(_memory: Memory) -> Stop<W> {
        Stop::Memory
    }
}

impl<W, T: Drop> From<AllocFailed<T>> for Stop<W> {
    ghost use Rattle.std.specs.Prelude.{◌≡◌};
    ghost use Rattle.page_io.specs.declared.stop.Stop.TheVariants as stop;

    ghost from_gives = { λ _ e. e ≡ stop.Memory };

    fn from(_error: AllocFailed<T>) -> Stop<W> {
        Stop::Memory
    }
}
