use crate::fault::FaultKind;
use page_io::Memory;
use std::alloc::{AllocError, AllocFailed};

/// Why a function of templates gives no value.
#[derive(Debug, PartialEq, Eq, Drop)]
pub enum ValueStop {
    /// The function has no meaning for what it was called with, or its value is too long.
    Fault(FaultKind),
    /// Out of memory.
    Memory,
}

impl From<Memory> for ValueStop {
    ghost use Rattle.std.specs.Prelude.{◌≡◌};
    ghost use Rattle.page_datum.specs.declared.stop.ValueStop.TheVariants as stop;

    ghost from_gives = { λ _ e. e ≡ stop.Memory };

    fn from(_error: Memory) -> ValueStop {
        ValueStop::Memory
    }
}

impl From<AllocError> for ValueStop {
    ghost use Rattle.std.specs.Prelude.{◌≡◌};
    ghost use Rattle.page_datum.specs.declared.stop.ValueStop.TheVariants as stop;

    ghost from_gives = { λ _ e. e ≡ stop.Memory };

    fn from(_error: AllocError) -> ValueStop {
        ValueStop::Memory
    }
}

impl<T: Drop> From<AllocFailed<T>> for ValueStop {
    ghost use Rattle.std.specs.Prelude.{◌≡◌};
    ghost use Rattle.page_datum.specs.declared.stop.ValueStop.TheVariants as stop;

    ghost from_gives = { λ _ e. e ≡ stop.Memory };

    fn from(_error: AllocFailed<T>) -> ValueStop {
        ValueStop::Memory
    }
}
