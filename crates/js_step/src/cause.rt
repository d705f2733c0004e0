ghost use Rattle.std.specs.Prelude.{◌≡◌, Some};

use place_core::Code;

/// Why a script is refused: `back` bytes before the byte at hand, or before the end; the place that is shown for it stands `shown` bytes
/// before.
#[derive(Clone, Copy)]
pub struct ScriptCause {
    pub code: Code,
    pub back: u128,
    pub shown: u128,
}

// A cause, where something is refused.
pub fn caused(code: Code, back: u128, shown: u128) -> Option<ScriptCause>
    ensures { result ≡ Some (record { code = code; back = back; shown = shown }) }
{
    Some(ScriptCause { code, back, shown })
}
