use page_check::MakeRefused;
use page_datum::{DataRefused, ExecFault};

/// Why a command stopped.
#[derive(Debug, Drop)]
pub enum CommandStop {
    /// The files are no set, for another cause than memory.
    Set(MakeRefused),
    /// The execution met a fault.
    Fault(ExecFault),
    /// The input is no data, for another cause than memory.
    Data(DataRefused),
    /// The folder or the input failed.
    Read,
    /// The output failed.
    Write,
    /// No root has the name.
    NoTemplate,
    /// Out of memory.
    Memory,
}
