ghost use Rattle.std.specs.Prelude.{◌≡◌, ◌+◌, ◌-◌, ◌<◌, ◌^◌, ◌++◌, ◌∷◌, [], length, MatchBool};
ghost use Rattle.std.specs.Arc.{arc_value};
ghost use Rattle.set_publisher.specs.Histories.{head_of};
ghost use Rattle.set_publisher.specs.Showing.{GrowsBy};

use crate::counted::{Append, Counted, Nothing};
use crate::known::Known;
use logbook::{Offer, Seen, Start, Word};
use std::sync::Arc;

/// The list of sets as its one writer has it: a word that is its length at each step, and all that is known of it.
#[derive(Drop)]
pub struct History<V> {
    word: Word<V, (), Counted>,
    pub known: Known<V>,
    ghost its: { word ≡ head_of known.seen.book },
}

impl<V: Drop> History<V> {
    /// A list without sets.
    pub fn new() -> History<V>
        ensures { result.known.seen.log ≡ [] }
    {
        let (seen, mut first, _second) = Seen::open(Start::alone(), 0, 0);
        History {
            word: Word::tracked(0, &mut first),
            known: Known { number: 0, seen },
        }
    }

    /// Appends a set, in one step. It is false, and then nothing was appended, where the list is not as long as its writer knows.
    pub fn append(&mut self, set: &Arc<V>) -> bool
        requires { self.old.known.number < 2 ^ 64 - 1 }
        ensures { let grows = GrowsBy self.old.known (arc_value set.now) self.new.known in
            MatchBool result grows (self.new ≡ self.old) }
    {
        let mut seen = self.known.seen.again();
        let mut offer: Offer<V, (), Counted, Nothing> = seen.plain::<Nothing, Arc<V>, Append>(set);
        let mut pen = seen.no_pen();
        let number = self.known.number;
        let found = self
            .word
            .compare_exchange::<Append, Nothing>(
                number,
                number + 1,
                &mut seen,
                &mut offer,
                &mut pen,
            );
        if found != number {
            return false;
        }
        self.known = Known {
            number: number + 1,
            seen,
        };
        true
    }
}
