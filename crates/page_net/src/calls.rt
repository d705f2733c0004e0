ghost use Rattle.std.specs.Prelude.{◌≡◌, ◌+◌, ◌-◌, ◌^◌, ◌↔◌, ◌≤◌, min, IsErr, Contains};
ghost use Rattle.page_io.specs.Causes.{Rose, HasCause};

use page_io::{Failed, List};

/// A counter of the calls on a connection over memory and of its faults, with the numbers of the calls that are to
/// fail. Calls are counted from 1, and both counts stand still at the end of their type.
#[derive(Debug, Drop)]
pub struct CallCounter {
    fail: List<u64>,
    made: u64,
    faults: u64,
}

impl CallCounter {
    /// No call and no fault yet.
    pub fn new(fail: List<u64>) -> CallCounter
        ensures { result ≡ record { fail = fail; made = 0; faults = 0 } }
    {
        CallCounter {
            fail,
            made: 0,
            faults: 0,
        }
    }

    /// Counts a call, which fails where its number is one of those that are to fail.
    pub fn begin(&mut self) -> Result<(), Failed>
        ensures made { self.new.made ≡ min (self.old.made + 1) (2 ^ 64 - 1) }
        ensures fail { self.new.fail ≡ self.old.fail }
        ensures told { IsErr result ↔ Contains self.old.fail self.new.made }
        ensures cause { HasCause self.old.faults self.new.faults result }
    {
        self.made = self.made.saturating_add(1);
        if self.fail.as_slice().contains(&self.made) {
            return Err(self.fault());
        }
        Ok(())
    }

    /// Counts a fault, and gives what the call answers then.
    pub fn fault(&mut self) -> Failed
        ensures same { (self.new.made ≡ self.old.made) × (self.new.fail ≡ self.old.fail) }
        ensures later { self.old.faults ≤ self.new.faults }
        ensures rose { Rose self.old.faults self.new.faults }
    {
        self.faults = self.faults.saturating_add(1);
        Failed
    }

    /// How many calls failed.
    pub fn faults(&self) -> u64
        ensures { result ≡ self.now.faults }
    {
        self.faults
    }
}
