use place_core::Place;
use tpl_paths::Point;

/// How a place came to a point of a pair.
#[derive(Clone, Copy, Debug)]
pub enum DerivedFrom {
    /// With the place in which a root is entered.
    Root,
    /// With the place of a call: by the pair that calls, which is a template's number and the place in which it is entered, and by the
    /// number of the edge of the call.
    Called(u32, Place, u32),
    /// Along an edge of the template, by its number.
    Along(u32),
}

/// What was given to a point of a pair, and what it was made of.
#[derive(Clone, Copy, Debug)]
pub struct Derivation {
    /// The template's number.
    pub template: u32,
    /// The place in which it is entered.
    pub entry: Place,
    /// The point to which something was given.
    pub point: Point,
    /// How it came there.
    pub from: DerivedFrom,
    /// The place at the start of the edge along which it came, or before the call.
    pub source: Place,
    /// What was given.
    pub place: Place,
}
