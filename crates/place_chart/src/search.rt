ghost use Rattle.std.specs.Prelude.{◌≡◌, slice_get};
ghost use Rattle.place_chart.specs.Numbers.{is_at, number_in_list};

use crate::summary::Summary;
use place_core::Place;

// The first of some summaries, by their numbers, that has a place as its entry.
pub(crate) fn first_at(summaries: &[Summary], numbers: &[u32], entry: Place) -> Option<usize>
    ensures { result ≡ number_in_list summaries.now numbers.now entry }
{
    for number in numbers {
        let at = *number as usize;
        if enters_in(summaries, at, entry) {
            return Some(at);
        }
    }
    None
}

// Whether there is a summary with this number that has a place as its entry.
fn enters_in(summaries: &[Summary], at: usize, entry: Place) -> bool
    ensures { result ≡ is_at (slice_get summaries.now at) entry }
{
    match summaries.get(at) {
        Some(summary) => summary.entry == entry,
        None => false,
    }
}
