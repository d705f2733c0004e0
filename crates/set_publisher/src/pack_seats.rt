ghost use Rattle.std.specs.Prelude.{◌≡◌};

use crate::desk::Desk;
use crate::notice::Notice;
use crate::seats::{SeatStop, Seats};
use crate::viewer::Viewer;
use page_io::List;

/// The places of `left_right`. Calls are counted from 1, and those of some numbers are to fail.
#[derive(Drop)]
pub struct PackSeats {
    fail: List<u64>,
    calls: u64,
    faults: u64,
}

impl PackSeats {
    /// Places that refuse the calls of these numbers, and no others while the desk has places.
    pub fn new(fail: List<u64>) -> PackSeats
        ensures { result ≡ record { fail = fail; calls = 0; faults = 0 } }
    {
        PackSeats {
            fail,
            calls: 0,
            faults: 0,
        }
    }

    /// How many places were refused.
    pub fn faults(&self) -> u64
        ensures { result ≡ self.now.faults }
    {
        self.faults
    }
}

impl Seats for PackSeats {
    ghost faults = { λ s. s.faults };

    fn seat<V: Drop + Send + Sync, S: Notice<V>>(
        &mut self,
        desk: &mut Desk<V, S>,
    ) -> Result<Viewer<V, S>, SeatStop> {
        self.calls = self.calls.saturating_add(1);
        let given = if self.fail.as_slice().contains(&self.calls) {
            Err(SeatStop::Failed)
        } else {
            desk.seat()
        };
        if let Err(SeatStop::Failed) = given {
            self.faults = self.faults.saturating_add(1);
        }
        given
    }
}
