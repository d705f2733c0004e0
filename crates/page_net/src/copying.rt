ghost use Rattle.std.specs.Prelude.{◌≡◌, ◌<◌, ◌≤◌, [], length, take, min};

/// Copies a prefix of the bytes that are left, at most `step`, and says how many they are.
pub fn copy_front(rest: &[u8], buf: &mut [u8], step: u64) -> usize
    requires { 0 < step }
    ensures count { result ≡ min (min (length rest.now) (length buf.new)) step }
    ensures within { result ≤ length rest.now }
    ensures bound { result ≤ length buf.new }
    ensures bytes { take result buf.new ≡ take result rest.now }
    ensures end { result ≡ 0 → 0 < length buf.new → rest.now ≡ [] }
{
    let count = rest.len().min(buf.len()).min(step as usize);
    buf[..count].copy_from_slice(&rest[..count]);
    count
}
