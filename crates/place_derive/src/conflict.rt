use place_core::Place;

/// Why something is in conflict.
#[derive(Clone, Copy, Debug)]
pub enum Why {
    /// The edge is refused from the place.
    Refused,
    /// What the edge gives, the second place, does not join with what was there, the first one.
    Clashes(Place, Place),
}

/// Where something is in conflict: an edge of a pair, and the place at its start.
#[derive(Clone, Copy, Debug)]
pub struct FirstConflict {
    /// The template's number.
    pub template: u32,
    /// The place in which it is entered.
    pub entry: Place,
    /// The edge's number.
    pub edge: u32,
    /// The place at the edge's start.
    pub source: Place,
    /// Why it is in conflict.
    pub why: Why,
}
