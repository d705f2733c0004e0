ghost use Rattle.std.specs.Prelude.{◌≡◌, ◌+◌, ◌-◌, ◌^◌, ◌<◌, ◌⊎◌, ◌∷◌, All, [], length, min, Some, IfOk, IfSome, IsErrOf, OnErr, Contains};
ghost use Rattle.page_io.specs.Causes.{HasStop};
ghost use Rattle.page_io.specs.declared.stop.IoStop.TheVariants as stop;
ghost use Rattle.page_net.specs.Doors.{IsFreshDoor};
ghost use Rattle.page_net.specs.Nets.{GivesDoor, TakesDoorBack, CountsDoor};
ghost use Rattle.page_net.specs.Loans.{door_told, net_told};

use crate::calls::CallCounter;
use crate::door::Door;
use crate::link::Link;
use crate::loans::Loans;
use crate::mem_door::MemDoor;
use crate::net::Net;
use page_io::{IoStop, List, Memory};
use std::alloc::Global;

/// A net over memory: it gives stated doors in order, whatever the address, and fails at stated calls and where none is
/// left.
#[derive(Debug, Drop)]
pub struct MemNet<L> {
    doors: Loans<MemDoor<L>>,
    calls: CallCounter,
    ghost fresh: { All (λ d. IsFreshDoor d.calls.faults (Some (door_told d.links))) doors.coming },
}

impl<L: Link + Drop> MemNet<L> {
    /// A net of these doors. `fail` has the numbers of the calls of `door` that are to fail, counted from 1. Fails only
    /// if allocation fails.
    pub fn new(alloc: Global, doors: List<MemDoor<L>>, fail: List<u64>) -> Result<MemNet<L>, Memory>
        requires { All (λ d. IsFreshDoor (⟦<MemDoor<L> as Door>⟧.faults d)
            (⟦<MemDoor<L> as Door>⟧.told d)) doors }
        ensures told { IfOk result (λ net. ⟦<MemNet<L> as Net>⟧.told net
            ≡ Some (record { given = 0; back = [] })) }
        ensures faults { IfOk result (λ net. ⟦<MemNet<L> as Net>⟧.faults net ≡ 0) }
        ensures coming { IfOk result (λ net. net.doors.coming ≡ doors) }
        ensures calls { IfOk result (λ net.
            net.calls ≡ record { fail = fail; made = 0; faults = 0 }) }
    {
        Ok(MemNet {
            doors: Loans::new(alloc, doors)?,
            calls: CallCounter::new(fail),
        })
    }

    /// The doors that are back, in order.
    pub fn back(&self) -> &[MemDoor<L>]
        ensures { IfSome (⟦<MemNet<L> as Net>⟧.told self.now) (λ t. result.now ≡ t.back) }
    {
        self.doors.back()
    }

    /// How many calls failed, and how many doors that came back had failed.
    pub fn faults(&self) -> u64
        ensures { ⟦<MemNet<L> as Net>⟧.faults self.now ≡ result }
    {
        self.calls.faults()
    }
}

impl<L: Link + Drop> Net for MemNet<L> {
    type Door = MemDoor<L>;

    ghost use Rattle.std.specs.Prelude.{Some};
    ghost use Rattle.std.proofs.Common.{arith};
    ghost use Rattle.page_net.specs.Loans.{net_told};

    ghost told = { λ n. Some (net_told n.doors) };

    ghost faults = { λ n. n.calls.faults };

    ghost bounded = { λ n. Prim.omega arith };

    /// Fails exactly at the stated calls and where no door is left, and never for want of memory.
    fn door(&mut self, _alloc: Global, _addr: &str) -> Result<MemDoor<L>, IoStop>
        ensures fresh { IfOk result (λ door.
            IsFreshDoor door.calls.faults (Some (door_told door.links))) }
        ensures gave { GivesDoor (net_told self.old.doors) (net_told self.new.doors) result }
        ensures kept { OnErr result (Some (net_told self.new.doors)
            ≡ Some (net_told self.old.doors)) }
        ensures cause { HasStop self.old.calls.faults self.new.calls.faults result }
        ensures first { IfOk result (λ door.
            self.old.doors.coming ≡ door ∷ self.new.doors.coming) }
        ensures made { self.new.calls.made ≡ min (self.old.calls.made + 1) (2 ^ 64 - 1) }
        ensures fail { self.new.calls.fail ≡ self.old.calls.fail }
        ensures failed { OnErr result (Contains self.old.calls.fail self.new.calls.made
            ⊎ (self.old.doors.coming ≡ [])) }
        ensures fine { IfOk result (λ _.
            Contains self.old.calls.fail self.new.calls.made → ⊥) }
        ensures memory { IsErrOf result stop.Memory → ⊥ }
    {
        self.calls.begin()?;
        if let Some(door) = self.doors.lend() {
            return Ok(door);
        }
        Err(self.calls.fault().into())
    }

    fn close(&mut self, door: MemDoor<L>)
        requires { length self.old.doors.back < self.old.doors.out + length self.old.doors.back }
        ensures back { TakesDoorBack (net_told self.old.doors) (net_told self.new.doors) door }
        ensures faults { CountsDoor self.old.calls.faults self.new.calls.faults door.calls.faults }
    {
        if door.faults() > 0 {
            self.calls.fault();
        }
        self.doors.take_back(door);
    }
}
