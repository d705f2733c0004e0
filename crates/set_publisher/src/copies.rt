//! The two copies of what is shown, and the steps on them.
ghost use Rattle.std.specs.Prelude.{◌≡◌, IfOk, IfSome, IsSomeAnd, Some, [], ◌∷◌, ◌++◌, drop, fold};
ghost use Rattle.std.specs.Arc.{arc_value};
ghost use Rattle.left_right.specs.Sides.{view};
ghost use Rattle.set_publisher.specs.Looks.{MatchLooked};
ghost use Rattle.set_publisher.specs.Showing.{Begins, Fits, shown_at};

use crate::known::Known;
use crate::looked::Looked;
use crate::notice::Notice;
use crate::rule::{Continues, Sees, Tells};
use crate::told::Told;
use left_right::reader::Reader;
use left_right::writer::Writer;
use page_io::Memory;
use std::alloc::Global;
use std::sync::Wait;

/// How many viewers a desk has places for.
const PLACES: usize = 16;

pub type SetReader<V, S> = Reader<S, Option<Known<V>>, Continues>;

pub type SetWriter<V, S> = Writer<S, S, Option<Known<V>>, Continues>;

// Enters once. What is told there is copied where it is not of this number, and else nothing but the reader's own place is written. It
// is none where nothing is shown, or where the set has too many owners to count.
pub fn look<V: Drop, S: Notice<V>>(
    reader: SetReader<V, S>,
    number: u64,
) -> (SetReader<V, S>, Option<Looked<Told<V>>>)
    ensures keeps { IfSome (view reader.place)
        (λ p. IsSomeAnd (view result.0.place) (λ q. Begins p q)) }
    ensures found { let after = view result.0.place in
        IfSome result.1 (λ looked. MatchLooked looked (shown_at (Some after) ≡ Some number)
        (λ told. (after ≡ Some told.known) × Fits (view reader.place) told.known)) }
{
    match reader.enter_as::<Sees>() {
        Ok(reading) => {
            let found = newer(reading.get().told(), number);
            (reading.leave(), found)
        }
        Err(reader) => (reader, None),
    }
}

// A copy of what is told where it is not of this number, unless the set has too many owners to count.
fn newer<V: Drop>(told: &Told<V>, number: u64) -> Option<Looked<Told<V>>>
    ensures { IfSome result (λ looked. MatchLooked looked (told.now.known.number ≡ number)
        (λ copy. copy.known ≡ told.now.known)) }
{
    if told.number() == number {
        return Some(Looked::Same);
    }
    match told.again() {
        Ok(told) => Some(Looked::New(told)),
        Err(Memory) => None,
    }
}

// Shows what begins with what is shown, unless memory is short.
pub fn try_publish<V: Drop, S: Notice<V>, R: Wait>(
    rt: &R,
    mut writer: SetWriter<V, S>,
    notice: S,
) -> (SetWriter<V, S>, Result<(), Memory>)
    requires { Begins (S.known_of writer.desk.shown.value) (S.known_of notice) }
    ensures { let shown = S.known_of result.0.desk.shown.value ≡ S.known_of notice in
        IfOk result.1 (λ _. shown × (view result.0.desk.place ≡ Some (S.known_of notice))) }
{
    if let Err(_) = writer.append(notice) {
        return (writer, Err(Memory));
    }
    let (writer, done) = writer.publish_as::<Sees, R>(rt);
    match done {
        Ok(()) => (writer, Ok(())),
        Err(_) => (writer, Err(Memory)),
    }
}

// A writer that shows this, and knows it.
pub fn open<V: Drop, S: Notice<V>, R: Wait>(
    alloc: Global,
    rt: &R,
    told: &Told<V>,
) -> Result<SetWriter<V, S>, Memory>
    ensures { IfOk result (λ w. (S.known_of w.desk.shown.value ≡ told.now.known)
        × (view w.desk.place ≡ Some told.now.known)) }
{
    let one = S::make(told.again()?);
    let two = S::make(told.again()?);
    let three = S::make(told.again()?);
    let writer: SetWriter<V, S> = Writer::new(alloc, one, two, PLACES)?;
    let (writer, done) = try_publish(rt, writer, three);
    match done {
        Ok(()) => Ok(writer),
        Err(e) => {
            drop(writer.take(rt));
            Err(e)
        }
    }
}

// A place for a reader that is told of the list. The error is that no place is left.
pub fn seat<V: Drop, S: Notice<V>>(writer: &mut SetWriter<V, S>) -> Result<SetReader<V, S>, Memory>
    ensures view { IfOk result (λ r. view r.place ≡ view writer.old.desk.place) }
    ensures shown { writer.new.desk.shown ≡ writer.old.desk.shown }
    ensures pending { (writer.new.log ≡ writer.old.log) × (writer.new.behind ≡ writer.old.behind) }
    ensures place { view writer.new.desk.place ≡ view writer.old.desk.place }
{
    let mut reader = writer.factory().reader()?;
    reader.learn::<Tells>(writer.tell::<Tells>());
    Ok(reader)
}

// Lays a notice at the end of those that are pending. Where there is no memory it tries again.
fn add<V: Drop, S: Notice<V>, R: Wait>(rt: &R, writer: &mut SetWriter<V, S>, notice: S)
    ensures desk { writer.new.desk ≡ writer.old.desk }
    ensures pending { drop writer.new.behind writer.new.log.items
        ≡ drop writer.old.behind writer.old.log.items ++ notice ∷ [] }
{
    let mut notice = notice;
    for _ in rt.forever() {
        match writer.append(notice) {
            Ok(()) => return,
            Err(back) => notice = back,
        }
    }
    unreachable!()
}

// Shows what is pending. Where it cannot be absorbed it tries again.
fn show<V: Drop, S: Notice<V>, R: Wait>(rt: &R, writer: SetWriter<V, S>) -> SetWriter<V, S>
    requires { let shown = writer.desk.shown.value in
        (next : S)
        → S.state next ≡ fold S.applied (S.state shown) (drop writer.behind writer.log.items)
        → Begins (S.known_of shown) (S.known_of next) }
    ensures state { let pending = drop writer.behind writer.log.items in
        S.state result.desk.shown.value ≡ fold S.applied (S.state writer.desk.shown.value) pending }
    ensures view { view result.desk.place ≡ Some (S.known_of result.desk.shown.value) }
{
    let mut writer = writer;
    for _ in rt.forever() {
        let (after, done) = writer.publish_as::<Sees, R>(rt);
        match done {
            Ok(()) => return after,
            Err(_) => writer = after,
        }
    }
    unreachable!()
}

// Shows what begins with what is shown.
pub fn publish<V: Drop, S: Notice<V>, R: Wait>(
    rt: &R,
    mut writer: SetWriter<V, S>,
    told: Told<V>,
) -> SetWriter<V, S>
    requires { Begins (S.known_of writer.desk.shown.value) told.known }
    ensures shown { (S.known_of result.desk.shown.value ≡ told.known)
        × (S.set_of result.desk.shown.value ≡ arc_value told.set) }
    ensures view { view result.desk.place ≡ Some told.known }
{
    add(rt, &mut writer, S::make(told));
    show(rt, writer)
}
