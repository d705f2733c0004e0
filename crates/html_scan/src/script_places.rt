// Where the bytes stand in a text that a script has been fed: a refusal says how many bytes it stands back among these.
ghost use Rattle.std.specs.Prelude.{◌≡◌, ◌*◌, ◌≤◌, ◌++◌, get_or};
ghost use Rattle.std.specs.Prelude as prelude;
ghost use Rattle.html_scan.specs.ScriptPlaces.{fed_at, fed_last, fed_text, places_fed};

use crate::class::class_of;
use crate::fed_run::{FedRun, fed_count, fed_place, fed_step};

/// How many bytes the script has been fed before the byte at an index, where the value begins at `begins`.
pub fn fed_before(text: &[u8], begins: usize, index: usize) -> u128
    requires begun { begins ≤ index }
    requires inside { index ≤ prelude.length text.now }
    ensures count { result ≡ prelude.length (fed_text text.now begins index) }
    ensures most { result ≤ 5 * index }
{
    let mut fed = 0;
    let mut reference = None;
    for at in begins..index {
        let step = fed_step(text, at, class_of(text[at]), reference);
        fed += fed_count(step.run);
        reference = step.reference;
    }
    fed
}

/// Where the byte of that number stands, of those before the index and those that the byte at the index feeds; where they are fewer, it is
/// the one at the index.
pub fn place_of(text: &[u8], begins: usize, index: usize, current: FedRun, number: u128) -> usize
    requires begun { begins ≤ index }
    requires inside { index ≤ prelude.length text.now }
    requires last { fed_last current ≤ index }
    ensures place { result ≡ get_or (places_fed (fed_text text.now begins index)
        ++ fed_at current index) number index }
    ensures bound { result ≤ index }
{
    let mut left = number;
    let mut reference = None;
    for at in begins..index {
        let step = fed_step(text, at, class_of(text[at]), reference);
        let count = fed_count(step.run);
        if left < count {
            return fed_place(step.run, at, left);
        }
        left -= count;
        reference = step.reference;
    }
    fed_place(current, index, left)
}
