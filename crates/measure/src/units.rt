ghost use Rattle.std.specs.Prelude.{◌≤◌, ◌<◌, OnOk, length, string_bytes};

use std::alloc::AllocError;

/// Pushes a unit as often as the text stays within its room.
pub fn push_units(text: &mut String, unit: &str, room: usize) -> Result<(), AllocError>
    requires unit { 0 < length unit.now }
    requires within { length (string_bytes text.old) ≤ room }
    ensures { OnOk result (length (string_bytes text.new) ≤ room) }
{
    while text.len() + unit.len() <= room {
        text.push_str(unit)?;
    }
    Ok(())
}

/// Pushes more where the text stays within its room.
pub fn push_within(text: &mut String, more: &str, room: usize) -> Result<(), AllocError>
    requires within { length (string_bytes text.old) ≤ room }
    ensures { OnOk result (length (string_bytes text.new) ≤ room) }
{
    if text.len() + more.len() > room {
        return Ok(());
    }
    text.push_str(more)
}
