// Where a text of a style has been read to, on all paths together.
use crate::scan::StyleScan;
use place_core::Css;

/// The scan state behind what has been read, and the place before the last byte that may begin an escape or a percent triple.
#[derive(Clone, Copy)]
pub struct StylePoint {
    pub scan: StyleScan,
    pub since: Css,
}
