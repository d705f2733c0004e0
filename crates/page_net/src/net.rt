ghost use Rattle.std.specs.Prelude.{◌≡◌, ℕ, Option, IfOk, OnErr};
ghost use Rattle.page_io.specs.Causes.{HasStop};
ghost use Rattle.page_net.specs.Doors.{IsFreshDoor};
ghost use Rattle.page_net.specs.Nets.{NetTold, GivesDoor, TakesDoorBack, HasDoorOut, IsNetBounded, CountsDoor};
ghost use Rattle.page_net.specs.Tellings.{BothTold};

use crate::door::Door;
use page_io::IoStop;
use std::alloc::Global;

/// What gives doors at an address, and takes them back.
pub trait Net {
    /// The doors that it gives.
    type Door: Door;

    // How many doors it gave, and those that it got back, where the net tells them.
    ghost told: { Self → Option (NetTold Self.Door) };

    // How many calls failed.
    ghost faults: { Self → ℕ };

    /// Gives a door at this address, which did not fail yet and got no link back. `Failed` comes only where the count
    /// of faults rose in this call. After an error the net is as before.
    fn door(&mut self, alloc: Global, addr: &str) -> Result<Self::Door, IoStop>
        ensures fresh { IfOk result (λ door.
            IsFreshDoor (Self.Door.faults door) (Self.Door.told door)) }
        ensures gave { BothTold (told self.old) (told self.new)
            (λ old now. GivesDoor old now result) }
        ensures kept { OnErr result (told self.new ≡ told self.old) }
        ensures cause { HasStop (faults self.old) (faults self.new) result };

    /// Takes a door back, of those that the net gave. The net's count of faults rises exactly where the door's is not
    /// 0. It takes no memory.
    fn close(&mut self, door: Self::Door)
        requires { HasDoorOut (told self.old) }
        ensures back { BothTold (told self.old) (told self.new)
            (λ old now. TakesDoorBack old now door) }
        ensures faults { CountsDoor (faults self.old) (faults self.new) (Self.Door.faults door) };

    // No net that tells got more doors back than it gave.
    ghost bounded: { (n : Self) → IsNetBounded (told n) };
}
