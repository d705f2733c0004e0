ghost use Rattle.std.specs.Prelude.{◌≡◌, ◌-◌, ◌≤◌, length};
ghost use Rattle.html_scan.specs.Slices as spec;

/// What has been read of a text from one place to another.
pub fn pending(text: &[u8], from: usize, to: usize) -> &[u8]
    requires from { from ≤ to }
    requires to { to ≤ length text.now }
    ensures read { result.now ≡ spec.pending text.now from to }
    ensures len { length result.now ≡ to - from }
{
    let (read, _) = text.split_at(to);
    let (_, pending) = read.split_at(from);
    pending
}
