ghost use Rattle.std.specs.Prelude.{◌≡◌, IfOk};

use crate::boxed::Boxed;
use page_io::{List, Memory};
use std::alloc::Global;
use std::marker::Model;
use tpl_symbol::Seam;

// The seams of a node. Few nodes have any, and the others take no memory for them. Contracts see the seams in order.
#[derive(Debug, Drop)]
pub(crate) struct KeptSeams {
    list: Option<Boxed<List<Seam>>>,
}

impl Model for KeptSeams {
    ghost use Rattle.std.specs.Prelude.{List};
    ghost use Rattle.tpl_symbol.specs.declared.symbol.Seam.{Seam};
    ghost use Rattle.tpl_tree.specs.KeptSeams.{seams_view};

    ghost Value = { List Seam };

    ghost view = { λ s. seams_view s.list };
}

impl KeptSeams {
    ghost use Rattle.std.specs.Prelude.{[]};

    // No seams, which does not allocate.
    pub(crate) fn none() -> KeptSeams
        ensures { result ≡ [] }
    {
        KeptSeams { list: None }
    }

    // These seams. Fails only if allocation fails.
    pub(crate) fn new(alloc: Global, seams: List<Seam>) -> Result<KeptSeams, Memory>
        ensures { IfOk result (λ made. made ≡ seams) }
    {
        if seams.as_slice().is_empty() {
            return Ok(KeptSeams::none());
        }
        Ok(KeptSeams {
            list: Some(Boxed::new(alloc, seams)?),
        })
    }

    // The seams in order.
    pub(crate) fn as_slice(&self) -> &[Seam]
        ensures { result.now ≡ self.now }
    {
        match &self.list {
            Some(list) => list.get().as_slice(),
            None => &[],
        }
    }

    // Equal seams. Fails only if allocation fails.
    pub(crate) fn copy(&self, alloc: Global) -> Result<KeptSeams, Memory>
        ensures { IfOk result (λ copy. copy ≡ self.now) }
    {
        match &self.list {
            Some(list) => KeptSeams::new(alloc, copy_seams(alloc, list.get())?),
            None => Ok(KeptSeams::none()),
        }
    }
}

/// Equal seams. Fails only if allocation fails.
pub fn copy_seams(alloc: Global, seams: &List<Seam>) -> Result<List<Seam>, Memory>
    ensures { IfOk result (λ copy. copy ≡ seams.now) }
{
    let mut copies = List::new(alloc);
    for seam in seams.as_slice() {
        copies.push(*seam)?;
    }
    Ok(copies)
}
