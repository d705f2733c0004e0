ghost use Rattle.std.specs.Prelude.{◌≡◌, ◌+◌, ◌<◌, ◌≤◌, drop, length};
ghost use Rattle.std.specs.Str.{IsCharBoundary};
ghost use Rattle.page_style.specs.Parts as spec;

/// A part of a text that is read at once, as the places where it begins and ends: an ASCII byte, or a longest run of bytes past ASCII,
/// which is word bytes of whole characters.
#[derive(Clone, Copy)]
pub struct Part {
    pub from: usize,
    pub to: usize,
}

/// The part that begins at a place.
pub fn part_at(text: &str, from: usize) -> Part
    requires within { from < length text.now }
    ensures from { result.from ≡ from }
    ensures to { result.to ≡ from + spec.part_len (drop from text.now) }
    ensures cut { IsCharBoundary text.now result.to }
    ensures some { from < result.to }
{
    let (_, rest) = text.as_bytes().split_at(from);
    Part {
        from,
        to: from + part_len(rest),
    }
}

// How many bytes the part at the beginning has.
fn part_len(bytes: &[u8]) -> usize
    requires some { 0 < length bytes.now }
    ensures len { result ≡ spec.part_len bytes.now }
    ensures bound { result ≤ length bytes.now }
{
    if bytes[0] < 128 { 1 } else { run_len(bytes) }
}

// How many bytes past ASCII stand at the beginning.
fn run_len(bytes: &[u8]) -> usize
    ensures len { result ≡ spec.past_len bytes.now }
    ensures bound { result ≤ length bytes.now }
{
    bytes.iter().take_while(|byte| **byte >= 128).count()
}
