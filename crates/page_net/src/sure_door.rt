ghost use Rattle.std.specs.Prelude.{◌≡◌, ◌+◌, ◌<◌, [], length, Some, IfOk, IfSome};
ghost use Rattle.page_net.specs.Doors.{TakesLinkBack};
ghost use Rattle.page_net.specs.Loans.{door_told};

use crate::door::{Came, Door};
use crate::link::Link;
use crate::loans::Loans;
use page_io::{Failed, List, Memory};
use std::alloc::Global;

/// A door over memory that never fails: stated links come through it in order.
#[derive(Debug, Drop)]
pub struct SureDoor<L> {
    links: Loans<L>,
}

impl<L: Link + Drop> SureDoor<L> {
    /// A door through which these links come. Fails only if allocation fails.
    pub fn new(alloc: Global, links: List<L>) -> Result<SureDoor<L>, Memory>
        ensures told { IfOk result (λ door. ⟦<SureDoor<L> as Door>⟧.told door
            ≡ Some (record { coming = links; given = 0; back = [] })) }
        ensures faults { IfOk result (λ door. ⟦<SureDoor<L> as Door>⟧.faults door ≡ 0) }
    {
        Ok(SureDoor {
            links: Loans::new(alloc, links)?,
        })
    }

    /// The links that are back, in order.
    pub fn back(&self) -> &[L]
        ensures { IfSome (⟦<SureDoor<L> as Door>⟧.told self.now) (λ t. result.now ≡ t.back) }
    {
        self.links.back()
    }
}

impl<L: Link + Drop> Door for SureDoor<L> {
    type Link = L;

    ghost use Rattle.std.specs.Prelude.{Some};
    ghost use Rattle.std.proofs.Common.{arith};
    ghost use Rattle.page_net.specs.Loans.{door_told};

    ghost told = { λ d. Some (door_told d.links) };

    ghost faults = { λ _. 0 };

    ghost bounded = { λ d. Prim.omega arith };

    fn accept(&mut self) -> Result<Came<L>, Failed> {
        match self.links.lend() {
            Some(link) => Ok(Came::Link(link)),
            None => Ok(Came::Closed),
        }
    }

    fn done(&mut self, link: L)
        requires { length self.old.links.back < self.old.links.out + length self.old.links.back }
        ensures back { TakesLinkBack (door_told self.old.links) (door_told self.new.links) link }
    {
        self.links.take_back(link);
    }
}
