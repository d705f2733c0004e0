use page_datum::ExecFault;
use page_io::Memory;

/// Why an execution stops.
#[derive(Debug, Drop)]
pub enum ExecStop {
    /// The template has no meaning for the data, or a limit is passed.
    Fault(ExecFault),
    /// What takes the page has failed.
    SinkStop,
    /// Out of memory.
    Memory,
}

impl From<Memory> for ExecStop {
    ghost use Rattle.std.specs.Prelude.{◌≡◌};
    ghost use Rattle.tpl_exec.specs.declared.stop.ExecStop.TheVariants as stop;

    ghost from_gives = { λ _ e. e ≡ stop.Memory };

    fn from(_error: Memory) -> ExecStop {
        ExecStop::Memory
    }
}
