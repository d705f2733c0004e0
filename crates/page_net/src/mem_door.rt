ghost use Rattle.std.specs.Prelude.{◌≡◌, ◌+◌, ◌-◌, ◌^◌, ◌↔◌, ◌<◌, [], length, min, Some, IfOk, IfSome, IsErr, OnErr, Contains};
ghost use Rattle.page_io.specs.Causes.{HasCause};
ghost use Rattle.page_net.specs.Doors.{Accepts, TakesLinkBack};
ghost use Rattle.page_net.specs.Loans.{door_told};

use crate::calls::CallCounter;
use crate::door::{Came, Door};
use crate::link::Link;
use crate::loans::Loans;
use page_io::{Failed, List, Memory};
use std::alloc::Global;

/// A door over memory: stated links come through it in order, and it fails at stated calls.
#[derive(Debug, Drop)]
pub struct MemDoor<L> {
    links: Loans<L>,
    calls: CallCounter,
}

impl<L: Link + Drop> MemDoor<L> {
    /// A door through which these links come. `fail` has the numbers of the calls of `accept` that are to fail, counted
    /// from 1. Fails only if allocation fails.
    pub fn new(alloc: Global, links: List<L>, fail: List<u64>) -> Result<MemDoor<L>, Memory>
        ensures told { IfOk result (λ door. ⟦<MemDoor<L> as Door>⟧.told door
            ≡ Some (record { coming = links; given = 0; back = [] })) }
        ensures faults { IfOk result (λ door. ⟦<MemDoor<L> as Door>⟧.faults door ≡ 0) }
        ensures calls { IfOk result (λ door.
            door.calls ≡ record { fail = fail; made = 0; faults = 0 }) }
    {
        Ok(MemDoor {
            links: Loans::new(alloc, links)?,
            calls: CallCounter::new(fail),
        })
    }

    /// The links that are back, in order.
    pub fn back(&self) -> &[L]
        ensures { IfSome (⟦<MemDoor<L> as Door>⟧.told self.now) (λ t. result.now ≡ t.back) }
    {
        self.links.back()
    }

    /// How many calls failed.
    pub fn faults(&self) -> u64
        ensures { ⟦<MemDoor<L> as Door>⟧.faults self.now ≡ result }
    {
        self.calls.faults()
    }
}

impl<L: Link + Drop> Door for MemDoor<L> {
    type Link = L;

    ghost use Rattle.std.specs.Prelude.{Some};
    ghost use Rattle.std.proofs.Common.{arith};
    ghost use Rattle.page_net.specs.Loans.{door_told};

    ghost told = { λ d. Some (door_told d.links) };

    ghost faults = { λ d. d.calls.faults };

    ghost bounded = { λ d. Prim.omega arith };

    /// Fails exactly at the stated calls.
    fn accept(&mut self) -> Result<Came<L>, Failed>
        ensures came { Accepts (door_told self.old.links) (door_told self.new.links) result }
        ensures kept { OnErr result (Some (door_told self.new.links)
            ≡ Some (door_told self.old.links)) }
        ensures cause { HasCause self.old.calls.faults self.new.calls.faults result }
        ensures made { self.new.calls.made ≡ min (self.old.calls.made + 1) (2 ^ 64 - 1) }
        ensures fail { self.new.calls.fail ≡ self.old.calls.fail }
        ensures failed { IsErr result ↔ Contains self.old.calls.fail self.new.calls.made }
    {
        self.calls.begin()?;
        match self.links.lend() {
            Some(link) => Ok(Came::Link(link)),
            None => Ok(Came::Closed),
        }
    }

    fn done(&mut self, link: L)
        requires { length self.old.links.back < self.old.links.out + length self.old.links.back }
        ensures back { TakesLinkBack (door_told self.old.links) (door_told self.new.links) link }
        ensures calls { self.new.calls ≡ self.old.calls }
    {
        self.links.take_back(link);
    }
}
