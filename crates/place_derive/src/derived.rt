ghost use Rattle.std.specs.Prelude.{◌≡◌, ℕ, List};
ghost use Rattle.place_core.specs.declared.place.Place.{Place as SpecPlace};
ghost use Rattle.place_derive.specs.Logs.{is_kept};
ghost use Rattle.place_derive.specs.Soundness.{IsSoundDerived};
ghost use Rattle.tpl_tree.specs.Forests.{ForestData};

use crate::conflict::FirstConflict;
use crate::log::Log;
use place_chart::Summaries;
use std::alloc::Global;

/// What is derived so far: the summaries of pairs, the log of what their points were given, and the first conflict. (In the terms of
/// data-flow analysis: the abstract states, with their provenance.)
#[derive(Debug, Drop)]
pub struct Derived {
    /// The summaries, one for each pair that was entered.
    pub summaries: Summaries,
    /// What their points were given, in order, if that is kept.
    pub log: Log,
    /// Where there was a conflict first.
    pub conflict: Option<FirstConflict>,
}

impl Derived {
    /// Nothing derived yet, with a log that is kept or not. Does not allocate.
    pub fn new(alloc: Global, keeps_log: bool) -> Derived
        ensures keeps { is_kept result.log ≡ keeps_log }
        ensures sound { (forest : ForestData) (roots : List ℕ) (first : SpecPlace)
            → IsSoundDerived forest roots first result }
    {
        let summaries = Summaries::new(alloc);
        let log = Log::new(alloc, keeps_log);
        Derived {
            summaries,
            log,
            conflict: None,
        }
    }
}
