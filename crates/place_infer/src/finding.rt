ghost use Rattle.std.specs.Prelude.{IfOk};
ghost use Rattle.place_core.specs.declared.place.Place.TheVariants as place;
ghost use Rattle.place_chart.specs.Least.{IsLeastChart};

use crate::check::{are_closed, are_entered};
use crate::kept::reached;
use crate::solver::derive;
use page_io::Memory;
use place_chart::Summaries;
use place_core::TEXT;
use place_flow::Flows;
use std::alloc::Global;

/// Finds the least chart of some roots, each of which is entered in text, whether or not there is a conflict in it. Fails only if
/// allocation fails, or if the chart that was found does not pass the check of its edges.
pub fn find_chart(alloc: Global, flows: &Flows, roots: &[u32]) -> Result<Summaries, Memory>
    ensures { IfOk result (λ found. IsLeastChart flows.now roots.now place.Text found) }
{
    let derived = derive(alloc, flows, roots, false)?;
    let summaries = reached(alloc, flows, roots, TEXT, derived.summaries)?;
    if are_closed(flows, &summaries) && are_entered(flows, &summaries, roots, TEXT) {
        return Ok(summaries);
    }
    Err(Memory)
}
