ghost use Rattle.std.specs.Prelude.{◌≡◌, ℕ, IsTrue, OnOk, [], false};
ghost use Rattle.place_chart.specs.Conflicts.{HasInnerConflict};
ghost use Rattle.place_chart.specs.Summaries.{AreInnerPut, HasNoInner, HasNumber, inner_state};
ghost use Rattle.place_flow.specs.PointStates.{IsConflictFree};

use crate::conflict::is_conflict;
use page_io::Memory;
use place_flow::PointState;
use std::alloc::Global;
use std::collections::BTreeMap;
use std::marker::Model;

/// What the points of controls have, by the numbers that `specs/Summaries.antt` gives them: most nodes are no controls. Contracts see the
/// numbers with what the points have, in order.
#[derive(Debug, Drop)]
pub struct InnerStates {
    states: BTreeMap<usize, PointState>,
}

impl Model for InnerStates {
    ghost use Rattle.std.specs.Prelude.{List, ℕ};
    ghost use Rattle.place_flow.specs.declared.point_state.PointState.{PointState};

    ghost Value = { List (ℕ × PointState) };

    ghost view = { λ s. s.states.entries };
}

impl InnerStates {
    // No points, which does not allocate.
    pub(crate) fn new(alloc: Global) -> InnerStates
        ensures { result ≡ [] }
    {
        InnerStates {
            states: BTreeMap::new(alloc),
        }
    }

    // Adds a point with nothing, by its number. Fails only if allocation fails.
    pub(crate) fn add(&mut self, number: usize) -> Result<(), Memory>
        ensures nothing { OnOk result (HasNoInner self.old → HasNoInner self.new) }
        ensures added { OnOk result (HasNumber self.new number) }
    {
        self.states.insert(number, PointState::Unreached)?;
        Ok(())
    }

    // What a point has, by its number; nothing where it is not among these.
    pub(crate) fn get(&self, number: usize) -> PointState
        ensures { result ≡ inner_state self.now number }
    {
        match self.states.get(&number) {
            Some(point_state) => *point_state,
            None => PointState::Unreached,
        }
    }

    // Whether a point is in conflict.
    pub(crate) fn has_conflict(&self) -> bool
        ensures conflict_free { result ≡ false → (i : ℕ) → IsConflictFree (inner_state self.now i) }
        ensures conflict { IsTrue result → HasInnerConflict self.now }
    {
        for (_number, point_state) in &self.states {
            if is_conflict(*point_state) {
                return true;
            }
        }
        false
    }

    // Gives a state to a point, where that is among these, and reports whether it is.
    pub(crate) fn put(&mut self, number: usize, point_state: PointState) -> bool
        ensures put { AreInnerPut self.old self.new number point_state }
        ensures has { HasNumber self.old number → IsTrue result }
        ensures given { IsTrue result → inner_state self.new number ≡ point_state }
        ensures kept { result ≡ false → self.new ≡ self.old }
    {
        match self.states.get_mut(&number) {
            Some(old) => {
                *old = point_state;
                true
            }
            None => false,
        }
    }
}
