ghost use Rattle.std.specs.Prelude.{◌≡◌, ℕ, ◌≤◌, IfOk, IsErrOf};
ghost use Rattle.page_io.specs.Causes.{Rose};
ghost use Rattle.set_publisher.specs.declared.seats.SeatStop.TheVariants.{Failed};
ghost use Rattle.set_publisher.specs.Publishing as spec;

use crate::desk::Desk;
use crate::notice::Notice;
use crate::viewer::Viewer;

/// Why there is no place.
#[derive(Debug, Clone, Copy, PartialEq, Eq)]
pub enum SeatStop {
    /// A place was refused.
    Failed,
    /// Out of memory.
    Memory,
}

/// Who gives viewers their places, and counts the refused ones among its faults. The count stays at 2^64 - 1, where standing still is a
/// rise.
pub trait Seats {
    ghost faults: { Self → ℕ };

    /// A viewer of this desk that has seen the list as it is; the list stays so, whatever the answer. `Failed` comes only where the
    /// count of faults rose.
    fn seat<V: Drop + Send + Sync, S: Notice<V>>(
        &mut self,
        desk: &mut Desk<V, S>,
    ) -> Result<Viewer<V, S>, SeatStop>
        ensures kept { desk.new ≡ desk.old }
        ensures seat { IfOk result (spec.Seats desk.old) }
        ensures counts { faults self.old ≤ faults self.new }
        ensures cause { IsErrOf result Failed → Rose (faults self.old) (faults self.new) };
}
