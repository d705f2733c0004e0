ghost use Rattle.std.specs.Prelude.{◌≡◌, ◌≤◌, ℕ, List, Contains, OnOk, length};
ghost use Rattle.place_core.specs.place.Places.{IsValid};
ghost use Rattle.place_core.specs.declared.place.Place.{Place as SpecPlace};
ghost use Rattle.place_derive.specs.Derivations.{IsEnteredPair, IsDerivation};
ghost use Rattle.place_derive.specs.FirstConflicts.{IsSoundLog};
ghost use Rattle.place_derive.specs.Logs.{IsKeptLog, is_kept};
ghost use Rattle.place_derive.specs.Soundness.{IsSoundDerived};
ghost use Rattle.place_derive.specs.declared.derivation.Derivation.{Derivation as SpecDerivation};
ghost use Rattle.place_derive.specs.Tracing.{StayIn, derivation_entering};

use crate::derivation::{Derivation, DerivedFrom};
use crate::derived::Derived;
use page_io::Memory;
use place_chart::blank;
use place_core::Place;
use place_flow::{Flows, PointState, is_point_state_below};
use std::alloc::Global;

impl Derived {
    // Enters a template in a place, from the place before, where that pair is not yet entered; gives the number of its summary then.
    pub(crate) fn enter(
        &mut self,
        alloc: Global,
        flows: &Flows,
        template: u32,
        entry: Place,
        from: DerivedFrom,
        source: Place,
    ) -> Result<Option<usize>, Memory>
        ensures sound { OnOk result ((roots : List ℕ) (first : SpecPlace)
            (log : List SpecDerivation)
            → IsEnteredPair from → IsKeptLog self.old.log log
            → IsDerivation flows.now roots first log
            (derivation_entering flows.now template entry from source) from
            → IsSoundLog flows.now roots first self.old.summaries log self.old.conflict
            → IsSoundDerived flows.now roots first self.new) }
        ensures stays { OnOk result (StayIn self.old.summaries self.new.summaries) }
        ensures keeps { OnOk result (is_kept self.new.log ≡ is_kept self.old.log) }
        ensures length { length self.old.summaries ≤ length self.new.summaries }
    {
        let start = flows.start(template);
        if is_point_state_below(
            PointState::At(entry),
            self.summaries.point_state_of_pair(template, entry, start),
        ) {
            return Ok(None);
        }
        let n = self.summaries.count();
        let summary = blank(alloc, flows, template, entry)?;
        self.summaries.push(summary)?;
        self.summaries.raise(n, start, PointState::At(entry));
        self.log.push(Derivation {
            template,
            entry,
            point: start,
            from,
            source,
            place: entry,
        })?;
        Ok(Some(n))
    }

    /// Enters a root in a place, where that pair is not yet entered, and reports whether it was not. Fails if allocation fails, or on
    /// more than `u32::MAX` summaries.
    pub fn enter_root(
        &mut self,
        alloc: Global,
        flows: &Flows,
        root: u32,
        first: Place,
    ) -> Result<bool, Memory>
        requires { IsValid first }
        ensures sound { OnOk result ((roots : List ℕ) → Contains roots root
            → IsSoundDerived flows.now roots first self.old
            → IsSoundDerived flows.now roots first self.new) }
        ensures keeps { OnOk result (is_kept self.new.log ≡ is_kept self.old.log) }
        ensures length { length self.old.summaries ≤ length self.new.summaries }
    {
        match self.enter(alloc, flows, root, first, DerivedFrom::Root, first)? {
            Some(_) => Ok(true),
            None => Ok(false),
        }
    }
}
