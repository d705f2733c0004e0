ghost use Rattle.std.specs.Prelude.{◌≡◌, ℕ, ◌≤◌, length, IfSome, MatchOption, Some};
ghost use Rattle.std.specs.Arc.{arc_value};
ghost use mathlib.Core.List.{IsPrefix};
ghost use Rattle.page_io.specs.Causes.{Rose};
ghost use Rattle.set_publisher.specs.Looks.{Finds, MatchLooked, LookMisses};

use crate::looked::Looked;
use crate::told::Told;
use std::sync::Arc;

/// What a viewer looks through: a place at a desk. Contracts see which list it is of, the sets that were seen through it, how many sets
/// the list had where the last look found it, and how often it has looked, and how often in vain. Both counts stay at 2^64 - 1, where
/// standing still is a rise.
pub trait Glass<V: Drop> {
    ghost use Rattle.logbook.specs.Pages.{Book};
    ghost use Rattle.std.specs.Prelude.{List, Option, ℕ};

    ghost desk: { Self → Book };

    ghost list: { Self → List V };

    ghost shown: { Self → Option ℕ };

    ghost looks: { Self → ℕ };

    ghost misses: { Self → ℕ };

    /// Looks, and gives the last set of the list that it found, with its number, or says that it is the one that was seen last. It is none
    /// only where the misses rose, and then what is seen is as it was. It is to take no memory, and to wait for nobody.
    fn look(&mut self) -> Option<Looked<(u64, Arc<V>)>>
        ensures desk { desk self.new ≡ desk self.old }
        ensures looks { Rose (looks self.old) (looks self.new) }
        ensures grows { IsPrefix (list self.old) (list self.new) }
        ensures found { let missed =
            LookMisses (list self.old) (list self.new) (misses self.old) (misses self.new) in
            let kept = misses self.new ≡ misses self.old in
            let same = list self.new ≡ list self.old in
            MatchOption result missed
            (λ looked. MatchLooked looked same
            (λ p. Finds (list self.old) (list self.new) p.0 (arc_value p.1)) × kept) }
        ensures shown { IfSome result (λ _. shown self.new ≡ Some (length (list self.new))) };

    /// Learns what was told, which is no less than what is seen, and gives the told set. It does not allocate, and waits for nobody.
    fn learn(&mut self, told: Told<V>) -> Arc<V>
        requires desk { told.known.seen.book ≡ desk self.old }
        requires longer { length (list self.old) ≤ told.known.number }
        ensures desk { desk self.new ≡ desk self.old }
        ensures list { list self.new ≡ told.known.seen.log }
        ensures grows { IsPrefix (list self.old) (list self.new) }
        ensures set { arc_value result ≡ arc_value told.set }
        ensures counts { (looks self.new ≡ looks self.old) × (misses self.new ≡ misses self.old) };
}
