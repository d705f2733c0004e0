ghost use Rattle.tpl_exec.specs.Machine.{fails_so};
ghost use Rattle.tpl_exec.specs.MachineView.{FaultAnswers};

use crate::stop::ExecStop;
use page_datum::{ExecFault, FaultKind};
use page_io::{Memory, Text};
use std::alloc::Global;

/// A fault of an action on a line, or out of memory.
#[cold]
#[inline(never)]
pub(crate) fn fault(alloc: Global, template: &str, line: u32, kind: FaultKind) -> ExecStop
    ensures { FaultAnswers (fails_so template.now line kind) result }
{
    match Text::copy_of(alloc, template) {
        Ok(template) => ExecStop::Fault(ExecFault {
            kind,
            template,
            line,
        }),
        Err(Memory) => ExecStop::Memory,
    }
}
