ghost use Rattle.std.specs.Prelude.{◌≡◌, ◌<◌, ◌≤◌, length};
ghost use mathlib.Core.List.{IsPrefix};
ghost use Rattle.page_io.specs.Causes.{Rose};
ghost use Rattle.set_publisher.specs.Values.{IsPublishedSetOf};
ghost use Rattle.set_publisher.specs.Looks.{LooksOnce};

use crate::glass::Glass;
use crate::known::Known;
use crate::looked::Looked;
use crate::notice::Notice;
use crate::pack_glass::PackGlass;
use crate::told::Told;
use std::marker::Model;
use std::sync::Arc;

/// What one thread sees of a list of sets: it keeps the last set that it has seen, with its number. Contracts see which list it is, the
/// first sets of it that were seen, and the counts of the glass (`Watched` of `specs/Values.antt`).
#[derive(Drop)]
#[repr(C)]
pub struct View<V: Drop, G: Glass<V> + Drop> {
    // Looks write to the view, so what lies beside it has no line of 64 bytes with what they write.
    before: [u64; 8],
    glass: G,
    number: u64,
    set: Arc<V>,
    after: [u64; 8],
}

impl<V: Drop, G: Glass<V> + Drop> Model for View<V, G> {
    ghost use Rattle.std.specs.Prelude.{◌≡◌, length};
    ghost use Rattle.std.specs.Arc.{arc_value};
    ghost use Rattle.set_publisher.specs.Values.{Watched, watched_code, IsPublishedSetOf};

    ghost Value = { Watched V };

    ghost coded = { watched_code V.code };

    ghost view = { λ v. record {
      book = G.desk v.glass;
      sets = G.list v.glass;
      looks = G.looks v.glass;
      misses = G.misses v.glass;
    } };

    ghost invariant = { λ v. (v.number ≡ length (G.list v.glass))
        × IsPublishedSetOf (G.list v.glass) v.number (arc_value v.set) };
}

/// A viewer at a desk over `left_right`.
pub type Viewer<V, S> = View<V, PackGlass<V, S>>;

impl<V: Drop, G: Glass<V> + Drop> View<V, G> {
    /// A viewer that has seen what its glass has, of which the last set was told.
    pub fn new(glass: G, told: Told<V>) -> View<V, G>
        requires { (told.known.seen.log ≡ G.list glass) × (told.known.seen.book ≡ G.desk glass) }
        ensures desk { result.book ≡ told.known.seen.book }
        ensures list { result.sets ≡ told.known.seen.log }
    {
        let Told { known, set } = told;
        View {
            before: [0; 8],
            glass,
            number: known.number,
            set,
            after: [0; 8],
        }
    }

    /// Looks, and gives the number of the set that is then kept: the one that the look found, or where it missed the one that was kept
    /// before. It is no less than any number that this viewer gave or learnt. It does not allocate, and waits for nobody.
    pub fn current(&mut self) -> u64
        ensures desk { self.new.book ≡ self.old.book }
        ensures grows { IsPrefix self.old.sets self.new.sets }
        ensures number { result ≡ length self.new.sets }
        ensures looks { Rose self.old.looks self.new.looks }
        ensures misses { LooksOnce self.old.sets self.new.sets self.old.misses self.new.misses }
    {
        if let Some(Looked::New((number, set))) = self.glass.look() {
            self.number = number;
            self.set = set;
        }
        self.number
    }

    /// The set that is kept: the last one that was seen. It does not allocate, and waits for nobody.
    pub fn set(&self) -> &V
        ensures { IsPublishedSetOf self.now.sets (length self.now.sets) result.now }
    {
        &self.set
    }

    /// Learns what a publish at the viewer's own desk told, where that is more than what it has seen, and keeps the told set then. It
    /// does not allocate, and waits for nobody.
    pub fn learn(&mut self, told: Told<V>)
        requires { told.known.seen.book ≡ self.old.book }
        ensures desk { self.new.book ≡ self.old.book }
        ensures grows { IsPrefix self.old.sets self.new.sets }
        ensures more { length self.old.sets < told.known.number
            → self.new.sets ≡ told.known.seen.log }
        ensures less { told.known.number ≤ length self.old.sets → self.new.sets ≡ self.old.sets }
        ensures counts { (self.new.looks ≡ self.old.looks) × (self.new.misses ≡ self.old.misses) }
    {
        if self.number < told.number() {
            self.number = told.number();
            self.set = self.glass.learn(told);
        }
    }

    /// The number of the set that is kept. It does not allocate, and waits for nobody.
    pub fn number(&self) -> u64
        ensures { result ≡ length self.now.sets }
    {
        self.number
    }
}

impl<V: Drop, S: Notice<V>> View<V, PackGlass<V, S>> {
    /// What is known of the list where that is what the viewer has seen. It can be compared with what another viewer of its desk knows, or
    /// with what was told, and says which begins the other. It does not allocate, and waits for nobody.
    pub fn known(&self) -> &Known<V>
        ensures sets { result.now.seen.log ≡ self.now.sets }
        ensures desk { result.now.seen.book ≡ self.now.book }
        ensures number { result.now.number ≡ length self.now.sets }
    {
        self.glass.known()
    }
}
