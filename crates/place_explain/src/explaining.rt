ghost use Rattle.std.specs.Prelude.{◌≡◌, IfOk, flat_map, map};
ghost use Rattle.place_explain.specs.Explaining.{Explains};
ghost use Rattle.place_explain.specs.PairText.{pair_text};

use crate::lines::push_pair;
use crate::order::{Key, ordered_keys};
use crate::reached::reached_pairs;
use page_io::{Memory, Text};
use place_infer::Chart;
use std::alloc::Global;
use tpl_tree::Forest;

/// The text that explains a pair of a chart: of each pair that it reaches, itself and those to which calls lead from it, a line with the
/// template, the place in which that is entered and the place at its end, and below it a line for each hole to which a path comes, with
/// what is done to its values. The pairs are ordered by the template's name and then by the printed place, in byte order. Where there is
/// no such pair, the text is empty. Fails only if allocation fails.
///
/// ```text
/// template "a.html" at text -> text
/// template "v" at text -> text
///   1 html
/// template "v" at value other dq plain -> value other dq plain
///   1 attr
/// ```
pub fn explain(alloc: Global, forest: &Forest, chart: &Chart, start: u32) -> Result<Text, Memory>
    ensures { IfOk result (Explains forest.now chart.now start) }
{
    let pairs = reached_pairs(alloc, forest, chart, start)?;
    let keys = ordered_keys(alloc, forest, chart, &pairs)?;
    text_of(alloc, forest, chart, &keys)
}

// What is said of some pairs, which are given by their keys.
fn text_of(alloc: Global, forest: &Forest, chart: &Chart, keys: &[Key]) -> Result<Text, Memory>
    ensures { IfOk result (λ text. text ≡ flat_map (pair_text forest.now chart.now)
        (map (λ key. key.2) keys.now)) }
{
    let mut out = Text::new(alloc);
    for key in keys {
        push_pair(alloc, forest, chart, &mut out, key.2)?;
    }
    Ok(out)
}
