ghost use Rattle.std.specs.Prelude.{◌≡◌, All, IfOk, IsTrue, map};
ghost use Rattle.place_trace.specs.Replays.{name_or_none};
ghost use Rattle.place_show.specs.Showings.{IsNamedTemplate, line_of_node, seen_choice};
ghost use Rattle.tpl_tree.specs.Forests.{tree_name_at};
ghost use Rattle.tpl_tree.specs.Trees.{head_line, nodes_from};

use crate::showing::Choice;
use page_io::{List, Memory, Text};
use place_trace::{Chosen, ReplayedCall};
use std::alloc::Global;
use tpl_tree::{Forest, Tree};

/// The name of a template by its number; nothing where the forest has none of that number. Fails only if allocation fails.
pub(crate) fn name_of(alloc: Global, forest: &Forest, template: u32) -> Result<Text, Memory>
    ensures { IfOk result (λ name. name ≡ name_or_none (tree_name_at forest.now template)) }
{
    if template as usize >= forest.count() {
        return Ok(Text::new(alloc));
    }
    Text::copy_of(alloc, forest.name(template))
}

/// The line of a node; 0 where there is no such node.
pub(crate) fn line_of(forest: &Forest, template: u32, node: u32) -> u32
    ensures { result ≡ line_of_node forest.now template node }
{
    if template as usize >= forest.count() {
        return 0;
    }
    line_in(forest.tree(template), node)
}

fn line_in(tree: &Tree, node: u32) -> u32
    ensures { result ≡ head_line (nodes_from tree.now.nodes node) }
{
    if node >= tree.count() {
        return 0;
    }
    tree.line(node)
}

/// Whether the templates of some choices are all of the forest.
pub(crate) fn are_named(forest: &Forest, chosen: &[Chosen]) -> bool
    ensures { IsTrue result → All (IsNamedTemplate forest.now) chosen.now }
{
    for choice in chosen {
        if choice.template as usize >= forest.count() {
            return false;
        }
    }
    true
}

/// What a path chose, as it is shown. Fails only if allocation fails.
pub(crate) fn seen_path(
    alloc: Global,
    forest: &Forest,
    chosen: &[Chosen],
) -> Result<List<Choice>, Memory>
    ensures { IfOk result (λ path. path ≡ map (seen_choice forest.now) chosen.now) }
{
    let mut path = List::new(alloc);
    for choice in chosen {
        path.push(Choice {
            template: name_of(alloc, forest, choice.template)?,
            line: line_of(forest, choice.template, choice.node),
            way: choice.way,
        })?;
    }
    Ok(path)
}

/// The nodes of open calls. Fails only if allocation fails.
pub(crate) fn call_nodes(alloc: Global, open_calls: &[ReplayedCall]) -> Result<List<u32>, Memory>
    ensures { IfOk result (λ nodes. nodes ≡ map (λ o. o.node) open_calls.now) }
{
    let mut nodes = List::new(alloc);
    for open in open_calls {
        nodes.push(open.node)?;
    }
    Ok(nodes)
}
