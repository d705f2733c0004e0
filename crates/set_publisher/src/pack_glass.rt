ghost use Rattle.std.specs.Prelude.{◌≡◌, ◌≤◌, length, Some, IsSomeAnd, option_map};
ghost use Rattle.std.specs.Arc.{arc_value};
ghost use mathlib.Core.List.{IsPrefix};
ghost use Rattle.left_right.specs.Sides.{view};
ghost use Rattle.set_publisher.specs.Showing.{shown_at};

use crate::copies;
use crate::copies::SetReader;
use crate::glass::Glass;
use crate::known::Known;
use crate::looked::Looked;
use crate::notice::Notice;
use crate::told::Told;
use std::sync::Arc;

/// A place at the two copies of `left_right`. A look misses where that gives no reading, where the set has too many owners to count,
/// or where what is shown is less than what was learnt; the last does not come, since a `Told` is given out after its set was shown.
/// Where nothing is new a look writes only what is this place's own, and counts no owner of the set.
#[derive(Drop)]
pub struct PackGlass<V: Drop, S: Notice<V>> {
    reader: Option<SetReader<V, S>>,
    known: Known<V>,
    looks: u64,
    misses: u64,
    // An equation, since it is used again after each look.
    ghost placed: { option_map (λ r. option_map (λ p. p.seen.book) (view r.place)) reader ≡ Some (Some known.seen.book) },
}

impl<V: Drop, S: Notice<V>> PackGlass<V, S> {
    /// A glass at this place, through which so much was seen.
    pub(crate) fn new(reader: SetReader<V, S>, known: Known<V>) -> PackGlass<V, S>
        requires { IsSomeAnd (view reader.place) (λ p. p.seen.book ≡ known.seen.book) }
        ensures { result.known ≡ known }
    {
        PackGlass {
            reader: Some(reader),
            known,
            looks: 0,
            misses: 0,
        }
    }

    // What is known of the list where that is what was seen.
    pub(crate) fn known(&self) -> &Known<V>
        ensures { result.now ≡ self.now.known }
    {
        &self.known
    }
}

impl<V: Drop, S: Notice<V>> Glass<V> for PackGlass<V, S> {
    ghost desk = { λ g. g.known.seen.book };

    ghost list = { λ g. g.known.seen.log };

    ghost shown = { λ g. shown_at (option_map (λ r. view r.place) g.reader) };

    ghost looks = { λ g. g.looks };

    ghost misses = { λ g. g.misses };

    fn look(&mut self) -> Option<Looked<(u64, Arc<V>)>> {
        self.looks = self.looks.saturating_add(1);
        let (reader, looked) = copies::look(self.reader.take().unwrap(), self.known.number);
        self.reader = Some(reader);
        match looked {
            Some(Looked::Same) => return Some(Looked::Same),
            Some(Looked::New(told)) if self.known.number < told.number() => {
                let _begun = told.known.is_begun_by(&self.known);
                let Told { known, set } = told;
                let number = known.number;
                self.known = known;
                return Some(Looked::New((number, set)));
            }
            _ => {}
        }
        self.misses = self.misses.saturating_add(1);
        None
    }

    fn learn(&mut self, told: Told<V>) -> Arc<V>
        requires desk { told.known.seen.book ≡ self.old.known.seen.book }
        requires longer { length self.old.known.seen.log ≤ told.known.number }
        ensures desk { self.new.known.seen.book ≡ self.old.known.seen.book }
        ensures list { self.new.known.seen.log ≡ told.known.seen.log }
        ensures grows { IsPrefix self.old.known.seen.log self.new.known.seen.log }
        ensures set { arc_value result ≡ arc_value told.set }
        ensures counts { (self.new.looks ≡ self.old.looks) × (self.new.misses ≡ self.old.misses) }
    {
        let _begun = told.known.is_begun_by(&self.known);
        let Told { known, set } = told;
        self.known = known;
        set
    }
}
