use place_core::Place;

/// Where an edge leads from a place.
#[derive(Clone, Copy, Debug)]
pub enum EdgeStep {
    /// To the edge's end, in a place.
    Reaches(Place),
    /// Into a template, by its number in the forest, in a place.
    Enters(u32, Place),
    /// Nowhere: it is refused.
    Refused,
}
