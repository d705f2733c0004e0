ghost use Rattle.std.specs.Prelude.{◌≡◌, IfOk};

use crate::kept_seams::KeptSeams;
use crate::node_kind::NodeKind;
use page_io::Memory;
use std::alloc::Global;

// A node as trees keep it, in one vector in the order of the source. What an execution reads of it stands first.
#[derive(Debug, Drop)]
pub(crate) struct Entry {
    // The line on which it begins.
    pub(crate) line: u32,
    // How many nodes its first part has.
    pub(crate) first: u32,
    // How many nodes its `else` part has.
    pub(crate) other: u32,
    // Whether a node follows it in the same part.
    pub(crate) more: bool,
    pub(crate) kind: NodeKind,
    // The seams of a text.
    pub(crate) seams: KeptSeams,
}

impl Entry {
    // An equal entry. Fails only if allocation fails.
    pub(crate) fn copy(&self, alloc: Global) -> Result<Entry, Memory>
        ensures { IfOk result (λ copy. copy ≡ self.now) }
    {
        let kind = self.kind.copy(alloc)?;
        let seams = self.seams.copy(alloc)?;
        Ok(Entry {
            kind,
            line: self.line,
            seams,
            first: self.first,
            other: self.other,
            more: self.more,
        })
    }
}
