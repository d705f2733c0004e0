ghost use Rattle.std.specs.Prelude.{◌≡◌, ◌++◌, ◌∷◌, [], true, OnOk, OnErr, IfErr};
ghost use Rattle.tpl_events.specs.Lists.{GoesOn, IsEventAdded, IsStated, IsUnkept};
ghost use Rattle.tpl_events.specs.Lists.{ListStays};
ghost use Rattle.tpl_events.specs.Lists.{before_number, events_in, kept_event, listed, passed};

use crate::sink::{HoleSink, HoleStop};
use page_datum::{Datum, DatumRef};
use page_io::Memory;
use std::alloc::Global;

/// An event that a list keeps, by the number of its node.
#[derive(Debug, Drop)]
pub enum Kept {
    /// A text.
    Text(u32),
    /// A hole, with a copy of its value.
    Hole(u32, Datum),
    /// A call.
    Call(u32),
    /// The end of a call.
    Leave,
}

/// A sink that keeps its events, and refuses a stated one so.
#[derive(Debug, Drop)]
pub struct ListSink {
    kept: Vec<Kept>,
    /// How many texts, holes and calls come before the one to refuse.
    before: Option<u64>,
    stop: HoleStop,
    whole: bool,
}

impl ListSink {
    /// A list without events. Of the texts, holes and calls that it is given, counted from 1, it refuses the one of this number so;
    /// with 0 it refuses none but when out of memory.
    pub fn new(alloc: Global, stop_at: u64, stop: HoleStop) -> ListSink
        ensures none { listed result ≡ [] }
        ensures before { result.before ≡ before_number stop_at }
        ensures so { result.stop ≡ stop }
        ensures whole { result.whole ≡ true }
    {
        ListSink {
            kept: Vec::new(alloc),
            before: if stop_at > 0 { Some(stop_at - 1) } else { None },
            stop,
            whole: true,
        }
    }

    /// The events, in their order.
    pub fn kept(&self) -> &[Kept]
        ensures { result.now ≡ self.now.kept.items }
    {
        self.kept.as_slice()
    }

    /// Whether all events that were taken are there. The end of a call is lost where memory ran out for it.
    pub fn is_whole(&self) -> bool
        ensures { result ≡ self.now.whole }
    {
        self.whole
    }

    // Counts one more text, hole or call, unless it is the one to refuse.
    fn admit(&mut self) -> Result<(), HoleStop>
        ensures taken { OnOk result (passed self.old.before ≡ Some self.new.before) }
        ensures refused { IfErr result (λ why. IsStated self.old why self.new) }
        ensures stays { ListStays self.old self.new }
    {
        match self.before {
            None => Ok(()),
            Some(left) => {
                if left == 0 {
                    self.before = None;
                    return Err(self.stop);
                }
                self.before = Some(left - 1);
                Ok(())
            }
        }
    }

    // Keeps one more event. Fails only if allocation fails.
    fn keep(&mut self, event: Kept) -> Result<(), HoleStop>
        ensures ok { OnOk result (IsEventAdded self.old (kept_event event) self.new) }
        ensures err { IfErr result (λ why. IsUnkept self.old why self.new) }
        ensures goes_on { GoesOn self.old self.new }
    {
        match push(&mut self.kept, event) {
            Ok(()) => Ok(()),
            Err(Memory) => Err(HoleStop::Memory),
        }
    }
}

impl HoleSink for ListSink {
    ghost use Rattle.std.specs.Prelude.{⊤};
    ghost use Rattle.tpl_events.specs.Lists.{ListDeclines, ListKeeps};

    ghost may = { λ _ _. ⊤ };

    ghost takes = { ListKeeps };

    ghost refuses = { ListDeclines };

    fn text(&mut self, node: u32) -> Result<(), HoleStop> {
        match self.admit() {
            Ok(()) => self.keep(Kept::Text(node)),
            Err(stop) => Err(stop),
        }
    }

    fn hole(&mut self, node: u32, datum: DatumRef<'_>) -> Result<(), HoleStop> {
        match self.admit() {
            Ok(()) => match datum.to_datum(*self.kept.allocator()) {
                Ok(copy) => self.keep(Kept::Hole(node, copy)),
                Err(Memory) => Err(HoleStop::Memory),
            },
            Err(stop) => Err(stop),
        }
    }

    fn call(&mut self, node: u32) -> Result<(), HoleStop> {
        match self.admit() {
            Ok(()) => self.keep(Kept::Call(node)),
            Err(stop) => Err(stop),
        }
    }

    fn leave(&mut self) {
        match push(&mut self.kept, Kept::Leave) {
            Ok(()) => {}
            Err(Memory) => self.whole = false,
        }
    }
}

// Appends an event, or leaves the others as they are when memory runs out.
fn push(kept: &mut Vec<Kept>, event: Kept) -> Result<(), Memory>
    ensures ok { OnOk result (events_in kept.new ≡ events_in kept.old ++ kept_event event ∷ []) }
    ensures err { OnErr result (events_in kept.new ≡ events_in kept.old) }
{
    kept.push(event)?;
    Ok(())
}
