// Where a text of a script has been read to, on all paths together, and what of it is refused.
use crate::scan::ScriptScan;
use place_core::{Code, Js};

/// The scan state behind what has been read, the last place that was shown before it, and how many bytes have been read.
#[derive(Clone, Copy)]
pub struct ScriptRead {
    pub scan: ScriptScan,
    pub last: Js,
    pub count: u128,
}

/// Why a text is refused, how many of its bytes stand before the one where the cause stands, and how many before the place that is shown.
#[derive(Clone, Copy)]
pub struct RefusedScript {
    pub code: Code,
    pub byte: u128,
    pub shown: u128,
}
