ghost use Rattle.std.specs.Prelude.{◌≡◌};
ghost use Rattle.tpl_eval.specs.Functions as spec;

use page_datum::FaultKind;

/// The most steps of an execution.
pub const MAX_STEPS: u64 = 50_000_000;

/// So many steps more. The error is Budget: there would be more than `MAX_STEPS`.
pub fn counted(more: u64, steps: u64) -> Result<u64, FaultKind>
    ensures { result ≡ spec.counted more steps }
{
    let steps = steps.saturating_add(more);
    if steps > MAX_STEPS {
        return Err(FaultKind::Budget);
    }
    Ok(steps)
}
