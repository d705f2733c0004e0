ghost use Rattle.std.specs.Prelude.{◌≡◌, IfErr, false, true};
ghost use Rattle.place_core.specs.declared.place.Place.TheVariants as place;
ghost use Rattle.place_infer.specs.BreaksInRanges.{HasBreaksInRanges};
ghost use Rattle.place_infer.specs.Inferring.{Infers, IsRefusal, NeedsError};
ghost use Rattle.place_chart.specs.Least.{IsLeastChart};
ghost use Rattle.place_infer.specs.Inferring as spec;
ghost use Rattle.tpl_tree.specs.Forests.{HasAscendingNames};

use crate::chart::{Chart, chart_of_summaries};
use crate::conflict::{conflict_in_summary, ends_elsewhere};
use crate::finding::find_chart;
use crate::refusal::{refusal_by_conflict, refusal_by_end};
use crate::roots::root_numbers;
use crate::set_refused::SetRefused;
use crate::solver::derive;
use page_io::{Memory, Names};
use place_chart::Summaries;
use place_flow::{Flows, flows_of};
use std::alloc::Global;
use tpl_tree::Forest;

/// The most pairs of a template and a place in which it is entered that a chart may have.
pub const LIMIT: usize = 8192;

// Why a set is refused that is in conflict: derives all again, with a log, from which the error is shown.
fn explained(
    alloc: Global,
    forest: &Forest,
    flows: &Flows,
    names: &Names,
    roots: &[u32],
) -> SetRefused
    ensures { flows.now ≡ forest.now → IsRefusal forest.now names.now false result }
{
    match derive(alloc, flows, roots, true) {
        Ok(derived) => refusal_by_conflict(
            alloc,
            forest,
            flows,
            names,
            derived.log.as_slice(),
            &derived.conflict,
        ),
        Err(Memory) => SetRefused::Memory,
    }
}

// Why a set is refused of which a root ends elsewhere than in text: likewise.
fn explained_end(
    alloc: Global,
    forest: &Forest,
    flows: &Flows,
    names: &Names,
    roots: &[u32],
    root: u32,
) -> SetRefused
    ensures { flows.now ≡ forest.now → IsRefusal forest.now names.now true result }
{
    match derive(alloc, flows, roots, true) {
        Ok(derived) => { refusal_by_end(alloc, forest, flows, names, derived.log.as_slice(), root) }
        Err(Memory) => SetRefused::Memory,
    }
}

// The chart of what was found, or why the set is refused.
fn judged(
    alloc: Global,
    forest: &Forest,
    flows: &Flows,
    names: &Names,
    roots: &[u32],
    found: Summaries,
) -> Result<Chart, SetRefused>
    ensures { flows.now ≡ forest.now → roots.now ≡ spec.root_numbers forest.now names.now
        → IsLeastChart forest.now roots.now place.Text found
        → Infers forest.now names.now result }
{
    if found.count() > LIMIT {
        return Err(SetRefused::TooManyDerived);
    }
    if let Some(_) = conflict_in_summary(&found) {
        drop(found);
        return Err(explained(alloc, forest, flows, names, roots));
    }
    if let Some(root) = ends_elsewhere(&found, roots) {
        drop(found);
        return Err(explained_end(alloc, forest, flows, names, roots, root));
    }
    Ok(chart_of_summaries(alloc, forest, found)?)
}

/// The chart of a set of templates: the places at the nodes of each template that a root reaches, for each place in which it is entered. A
/// root is entered in text; names that no template has are passed over. It is the least chart of the set, and covers every path of each
/// root. Each `break` and `continue` stands in a range, as `parse_file` takes no other ones. The errors, in the order in which they are
/// looked for:
///
/// - `TooManyDerived`: the chart would have more than `LIMIT` pairs.
/// - `Shows`: an error stands on a path of a root, or on two that meet, and is shown with them; `EndContext` comes only where no other error
///   stands.
/// - `Memory`: out of memory.
///
/// Takes time in proportion to the texts of the pairs that are made, times the logarithm of the controls of a template. Where an error is
/// shown, the pairs are made twice, and then the paths that show it are gone choice by choice; a stretch of a template on which nothing is
/// chosen is gone once for each context in which it begins.
pub fn infer(alloc: Global, forest: &Forest, roots: &Names) -> Result<Chart, SetRefused>
    requires { HasBreaksInRanges forest.now }
    ensures answers { Infers forest.now roots.now result }
    // A refusal for another cause than its pairs and want of memory needs an error on a path.
    ensures complete { HasAscendingNames forest.now
        → IfErr result (NeedsError forest.now roots.now) }
{
    let numbers = root_numbers(alloc, forest, roots)?;
    let flows = flows_of(alloc, forest)?;
    let found = find_chart(alloc, &flows, &numbers)?;
    judged(alloc, forest, &flows, roots, &numbers, found)
}
