ghost use Rattle.std.specs.Prelude.{◌≡◌, ◌∷◌, [], length, Some, None, IfOk, MatchResult};
ghost use Rattle.std.specs.Arc.{arc_value};
ghost use Rattle.set_publisher.specs.Values.{IsPublishedSetOf};
ghost use Rattle.set_publisher.specs.Publishing.{Publishes, Seats};

use crate::copies;
use crate::copies::SetWriter;
use crate::history::History;
use crate::notice::Notice;
use crate::pack_glass::PackGlass;
use crate::seats::SeatStop;
use crate::told::Told;
use crate::viewer::{View, Viewer};
use page_io::Memory;
use std::alloc::Global;
use std::marker::Model;
use std::mem;
use std::sync::{Arc, Wait};

/// The one writer of a list of sets, with places for 16 viewers. Contracts see which list it is, and the sets in it (`Published` of
/// `specs/Values.antt`). It is ended by `close`.
pub struct Desk<V: Drop, S: Notice<V>> {
    writer: Option<SetWriter<V, S>>,
    history: History<V>,
    told: Told<V>,
}

impl<V: Drop, S: Notice<V>> Model for Desk<V, S> {
    ghost use Rattle.std.specs.Prelude.{◌≡◌, Some, IsSomeAnd};
    ghost use Rattle.left_right.specs.Sides as sides;
    ghost use Rattle.set_publisher.specs.Values.{Published, published_code};

    ghost Value = { Published V };

    ghost coded = { published_code V.code };

    ghost view = { λ d. record { book = d.told.known.seen.book; sets = d.told.known.seen.log } };

    ghost invariant = { λ d. IsSomeAnd d.writer
        (λ w. (S.known_of w.desk.shown.value ≡ d.told.known) × (sides.view w.desk.place ≡ Some d.told.known))
        × (d.history.known ≡ d.told.known) };
}

// Puts a value back that was taken.
fn put_back<T>(slot: &mut Option<T>, value: T)
    requires { slot.old ≡ None }
    ensures { slot.new ≡ Some value }
{
    match mem::replace(slot, Some(value)) {
        None => (),
        Some(_) => unreachable!(),
    }
}

impl<V: Drop, S: Notice<V>> Desk<V, S> {
    /// A desk whose list has one set. Fails only if allocation fails.
    pub fn open<R: Wait>(alloc: Global, rt: &R, first: V) -> Result<Desk<V, S>, Memory>
        ensures { IfOk result (λ desk. desk.sets ≡ first ∷ []) }
    {
        let set = Arc::new(alloc, first)?;
        let mut history = History::new();
        if !history.append(&set) {
            return Err(Memory);
        }
        let told = Told::new(history.known.again(), set);
        let writer = copies::open::<V, S, R>(alloc, rt, &told)?;
        Ok(Desk {
            writer: Some(writer),
            history,
            told,
        })
    }

    /// Appends a set and shows it, and gives what others may learn of it. It may wait for viewers that are just looking.
    /// The error is out of memory, also where the number would pass 2^64 - 1; then the list is as before. Once the list has grown the set
    /// is shown, for which it tries again where that finds no memory.
    pub fn publish<R: Wait>(&mut self, alloc: Global, rt: &R, set: V) -> Result<Told<V>, Memory>
        ensures book { self.new.book ≡ self.old.book }
        ensures list { MatchResult result (Publishes self.old set self.new)
            (λ _. self.new.sets ≡ self.old.sets) }
    {
        if self.told.known.number == u64::MAX {
            return Err(Memory);
        }
        let set = Arc::new(alloc, set)?;
        let shown = Arc::try_clone(&set)?;
        let given = Arc::try_clone(&set)?;
        if !self.history.append(&set) {
            return Err(Memory);
        }
        let shown = Told::new(self.history.known.again(), shown);
        let given = Told::new(self.history.known.again(), given);
        let writer = copies::publish(rt, self.writer.take().unwrap(), shown);
        put_back(&mut self.writer, writer);
        self.told = Told::new(self.history.known.again(), set);
        Ok(given)
    }

    /// The last set.
    pub fn latest(&self) -> &V
        ensures { IsPublishedSetOf self.now.sets (length self.now.sets) result.now }
    {
        &self.told.set
    }

    /// Ends the desk. Its viewers keep what they have, and their looks miss from then on. It may wait for viewers that are just looking.
    pub fn close<R: Wait>(self, rt: &R) {
        let Desk {
            writer,
            history: _,
            told: _,
        } = self;
        drop(writer.unwrap().take(rt));
    }

    /// A viewer that has seen the list as it is. It does not allocate, and waits for nobody. `Failed` is that no place was given, as
    /// where all are taken, `Memory` that the set has too many owners to count. Nothing is counted here: see `PackSeats`.
    pub fn seat(&mut self) -> Result<Viewer<V, S>, SeatStop>
        ensures kept { self.new ≡ self.old }
        ensures seat { IfOk result (Seats self.old) }
    {
        let Ok(told) = self.told.again() else {
            return Err(SeatStop::Memory);
        };
        let known = told.known.again();
        let mut writer = self.writer.take().unwrap();
        let place = copies::seat(&mut writer);
        put_back(&mut self.writer, writer);
        match place {
            Ok(place) => Ok(View::new(PackGlass::new(place, known), told)),
            Err(_) => Err(SeatStop::Failed),
        }
    }
}
