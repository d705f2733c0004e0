// The start gate: a lock that is set once, to whether the workers behind it may work.
ghost use Rattle.std.specs.Prelude.{◌≡◌};

use std::sync::{OnceLock, OnceToken, Wait};

/// Sleeps until the gate is set, and shows to what.
pub(crate) fn wait_at<'g, R: Wait>(rt: &R, gate: &'g OnceLock<bool>) -> OnceToken<'g, bool>
    ensures { result.of ≡ gate.now.id }
{
    for _ in rt.forever() {
        gate.wait(rt);
        if let Some(token) = gate.witness() {
            return token;
        }
    }
    unreachable!()
}

/// Sets the gate. The thread that started the others sets it, once: that it was set before does
/// not come, and no clause of the lock says so.
pub(crate) fn set<'g, R: Wait>(
    rt: &R,
    gate: &'g OnceLock<bool>,
    opened: bool,
) -> OnceToken<'g, bool>
    ensures gate { result.of ≡ gate.now.id }
    ensures opened { result.value ≡ opened }
{
    match gate.set(rt, opened) {
        Ok(token) => token,
        Err(_) => {
            for _ in rt.forever() {}
            unreachable!()
        }
    }
}
