ghost use Rattle.std.specs.Prelude.{◌≡◌, ◌-◌, slice_get, Some, IfOk};
ghost use Rattle.std.specs.Arc.{arc_value};

use crate::known::Known;
use page_io::Memory;
use std::sync::Arc;

/// What a publish tells: all that is known of the list, and its last set. Whoever learns it has seen that set.
#[derive(Drop)]
pub struct Told<V: Drop> {
    /// How far the list has come.
    pub known: Known<V>,
    /// The last set of it.
    pub set: Arc<V>,
    ghost last: { slice_get known.seen.log (known.number - 1) ≡ Some (arc_value set) },
}

impl<V: Drop> Told<V> {
    /// What is known, with its last set.
    pub fn new(known: Known<V>, set: Arc<V>) -> Told<V>
        requires { slice_get known.seen.log (known.number - 1) ≡ Some (arc_value set) }
        ensures { (result.known ≡ known) × (result.set ≡ set) }
    {
        Told { known, set }
    }

    /// The number of the set.
    pub fn number(&self) -> u64
        ensures { result ≡ self.now.known.number }
    {
        self.known.number
    }

    /// A copy, to be told to someone else. The error is that the set has too many owners to count.
    pub fn again(&self) -> Result<Told<V>, Memory>
        ensures { IfOk result (λ told. (told.known ≡ self.now.known)
            × (arc_value told.set ≡ arc_value self.now.set)) }
    {
        Ok(Told {
            known: self.known.again(),
            set: Arc::try_clone(&self.set)?,
        })
    }
}
