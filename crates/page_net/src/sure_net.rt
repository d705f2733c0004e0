ghost use Rattle.std.specs.Prelude.{◌≡◌, ◌+◌, ◌<◌, ◌∷◌, All, [], length, Some, IfOk, IfSome, OnErr};
ghost use Rattle.page_io.specs.Causes.{HasStop};
ghost use Rattle.page_net.specs.Doors.{IsFreshDoor};
ghost use Rattle.page_net.specs.Nets.{GivesDoor, TakesDoorBack};
ghost use Rattle.page_net.specs.Loans.{door_told, net_told};

use crate::door::Door;
use crate::link::Link;
use crate::loans::Loans;
use crate::net::Net;
use crate::sure_door::SureDoor;
use page_io::{IoStop, List, Memory};
use std::alloc::Global;

/// A net over memory that never fails: it gives stated doors in order, whatever the address, and after these doors
/// through which no link comes.
#[derive(Debug, Drop)]
pub struct SureNet<L> {
    doors: Loans<SureDoor<L>>,
    ghost fresh: { All (λ d. IsFreshDoor 0 (Some (door_told d.links))) doors.coming },
}

impl<L: Link + Drop> SureNet<L> {
    /// A net of these doors. Fails only if allocation fails.
    pub fn new(alloc: Global, doors: List<SureDoor<L>>) -> Result<SureNet<L>, Memory>
        requires { All (λ d. IsFreshDoor (⟦<SureDoor<L> as Door>⟧.faults d)
            (⟦<SureDoor<L> as Door>⟧.told d)) doors }
        ensures told { IfOk result (λ net. ⟦<SureNet<L> as Net>⟧.told net
            ≡ Some (record { given = 0; back = [] })) }
        ensures faults { IfOk result (λ net. ⟦<SureNet<L> as Net>⟧.faults net ≡ 0) }
        ensures coming { IfOk result (λ net. net.doors.coming ≡ doors) }
    {
        Ok(SureNet {
            doors: Loans::new(alloc, doors)?,
        })
    }

    /// The doors that are back, in order.
    pub fn back(&self) -> &[SureDoor<L>]
        ensures { IfSome (⟦<SureNet<L> as Net>⟧.told self.now) (λ t. result.now ≡ t.back) }
    {
        self.doors.back()
    }
}

impl<L: Link + Drop> Net for SureNet<L> {
    type Door = SureDoor<L>;

    ghost use Rattle.std.specs.Prelude.{Some};
    ghost use Rattle.std.proofs.Common.{arith};
    ghost use Rattle.page_net.specs.Loans.{net_told};

    ghost told = { λ n. Some (net_told n.doors) };

    ghost faults = { λ _. 0 };

    ghost bounded = { λ n. Prim.omega arith };

    /// Gives the first door that is to come, if any is. Fails only if allocation fails.
    fn door(&mut self, alloc: Global, _addr: &str) -> Result<SureDoor<L>, IoStop>
        ensures fresh { IfOk result (λ door. IsFreshDoor 0 (Some (door_told door.links))) }
        ensures gave { GivesDoor (net_told self.old.doors) (net_told self.new.doors) result }
        ensures kept { OnErr result (Some (net_told self.new.doors)
            ≡ Some (net_told self.old.doors)) }
        ensures cause { HasStop 0 0 result }
        ensures first { IfOk result (λ door. (self.old.doors.coming ≡ [] → ⊥)
            → self.old.doors.coming ≡ door ∷ self.new.doors.coming) }
        ensures memory { OnErr result (self.old.doors.coming ≡ []) }
    {
        if let Some(door) = self.doors.lend() {
            return Ok(door);
        }
        let door = SureDoor::new(alloc, List::new(alloc))?;
        self.doors.lend_another()?;
        Ok(door)
    }

    fn close(&mut self, door: SureDoor<L>)
        requires { length self.old.doors.back < self.old.doors.out + length self.old.doors.back }
        ensures back { TakesDoorBack (net_told self.old.doors) (net_told self.new.doors) door }
    {
        self.doors.take_back(door);
    }
}
