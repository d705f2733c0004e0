ghost use Rattle.std.specs.Prelude.{◌≡◌, ◌<◌, ◌-◌, ◌++◌, ◌∷◌, [], IsTrue, IfSome, Some, length, slice_get};

use crate::points::same_point;
use crate::replay::ReplayedCall;

// The innermost open call, where it is one of the first templates.
pub(crate) fn innermost(calls: &[ReplayedCall], templates: usize) -> Option<ReplayedCall>
    ensures within { IfSome result (λ call. call.template < templates) }
    ensures last { IfSome result (λ call. slice_get calls.now (length calls.now - 1) ≡ Some call) }
{
    match calls.last() {
        Some(call) => {
            if call.template as usize >= templates {
                return None;
            }
            Some(*call)
        }
        None => None,
    }
}

// Takes the innermost open call away.
pub(crate) fn close(calls: &mut Vec<ReplayedCall>, call: ReplayedCall)
    ensures { slice_get calls.old.items (length calls.old.items - 1) ≡ Some call
        → calls.old.items ≡ calls.new.items ++ call ∷ [] }
{
    calls.pop();
}

fn same_call(a: ReplayedCall, b: ReplayedCall) -> bool
    ensures { IsTrue result → a ≡ b }
{
    a.template == b.template && a.node == b.node && same_point(a.back, b.back)
}

// Whether the same calls are open.
pub(crate) fn same_calls(a: &[ReplayedCall], b: &[ReplayedCall]) -> bool
    ensures { IsTrue result → a.now ≡ b.now }
{
    if a.len() != b.len() {
        return false;
    }
    for i in 0..a.len() {
        if !same_call(a[i], b[i]) {
            return false;
        }
    }
    true
}
