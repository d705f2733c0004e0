ghost use Rattle.std.specs.Prelude.{◌≡◌, IfOk, map};
ghost use Rattle.place_explain.specs.Explaining.{AreOrdered, pair_key_of};
ghost use Rattle.place_trace.specs.Replays.{name_or_none};
ghost use Rattle.tpl_tree.specs.Forests.{tree_name_at};

use html_step::print_place;
use page_io::{Memory, Text};
use place_infer::Chart;
use std::alloc::Global;
use tpl_tree::Forest;

/// What pairs are ordered by: the name of the template, the printed place in which it is entered, and the number of the pair.
pub type Key = (Text, Text, u32);

// The key of a pair.
fn key(alloc: Global, forest: &Forest, chart: &Chart, n: u32) -> Result<Key, Memory>
    ensures { IfOk result (λ key. key ≡ pair_key_of forest.now chart.now n) }
{
    if n as usize >= chart.pairs() {
        return Ok((Text::new(alloc), Text::new(alloc), n));
    }
    let (template, entry) = chart.pair(n);
    let name = Text::copy_of(alloc, name_of(forest, template))?;
    Ok((name, print_place(alloc, entry)?, n))
}

// The name of a template; none where the forest has not the template.
fn name_of(forest: &Forest, template: u32) -> &str
    ensures { result.now ≡ name_or_none (tree_name_at forest.now template) }
{
    if template as usize >= forest.count() {
        return "";
    }
    forest.name(template)
}

// The keys of pairs.
fn keys(alloc: Global, forest: &Forest, chart: &Chart, pairs: &[u32]) -> Result<Vec<Key>, Memory>
    ensures { IfOk result (λ keys. keys.items ≡ map (pair_key_of forest.now chart.now) pairs.now) }
{
    let mut keys = Vec::new(alloc);
    for n in pairs {
        keys.push(key(alloc, forest, chart, *n)?)?;
    }
    Ok(keys)
}

/// The keys of pairs, in order. Fails only if allocation fails.
pub fn ordered_keys(
    alloc: Global,
    forest: &Forest,
    chart: &Chart,
    pairs: &[u32],
) -> Result<Vec<Key>, Memory>
    ensures { IfOk result (λ keys. AreOrdered forest.now chart.now pairs.now
        (map (λ key. key.2) keys.items)) }
{
    let mut keys = keys(alloc, forest, chart, pairs)?;
    keys.sort_unstable();
    Ok(keys)
}
