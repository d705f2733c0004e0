ghost use Rattle.std.specs.Prelude.{◌≡◌, ◌<◌, ◌^◌, length, Some, IfOk, IfSome, option_and_then};
ghost use Rattle.tpl_tree.specs.Forests.{HasAscendingNames, tree_name_at, number_named, tree_at};
ghost use Rattle.tpl_tree.specs.Forests.{tree_named};

use crate::tree::Tree;
use page_io::{Memory, Text, number_of_key};
use std::alloc::Global;
use std::collections::BTreeMap;
use std::marker::Model;

/// Trees with names, in byte order of the names, each name once. Contracts see it as `ForestData` of
/// `specs/Forests.antt`.
#[derive(Debug, Drop)]
pub struct Forest {
    trees: Vec<(Text, Tree)>,
}

impl Model for Forest {
    ghost use Rattle.std.specs.Prelude.{◌^◌, ◌<◌, length};
    ghost use Rattle.std.specs.Coded.{coded_list, coded×, coded_ℕ};
    ghost use Rattle.tpl_tree.specs.Forests.{ForestData, HasAscendingNames};
    ghost use Rattle.tpl_tree.specs.NodesCode.{tree_code};

    ghost Value = { ForestData };

    ghost coded = { coded_list (coded× (coded_list coded_ℕ) tree_code) };

    ghost view = { λ f. f.trees.items };

    ghost invariant = { λ f. HasAscendingNames f.trees.items × (length f.trees.items < 2 ^ 32) };
}

impl Forest {
    /// The forest of these trees. Fails if allocation fails, or on more than `u32::MAX` trees.
    pub fn from_map(alloc: Global, map: BTreeMap<Text, Tree>) -> Result<Forest, Memory>
        ensures { IfOk result (λ forest. forest ≡ map.entries) }
    {
        if map.len() > u32::MAX as usize {
            return Err(Memory);
        }
        let mut trees = Vec::new(alloc);
        for (name, tree) in map {
            trees.push((name, tree))?;
        }
        Ok(Forest { trees })
    }

    /// How many trees there are. They are numbered from 0 in byte order of their names.
    pub fn count(&self) -> usize
        ensures count { result ≡ length self.now }
        ensures fits { length self.now < 2 ^ 32 }
        ensures ascend { HasAscendingNames self.now }
    {
        self.trees.len()
    }

    /// The number of the tree with this name, or none where no tree has it. It does not allocate and a number of steps like
    /// the logarithm of the number of trees.
    pub fn find(&self, name: &str) -> Option<u32>
        ensures number { result ≡ number_named name.now self.now }
        ensures within { IfSome result (λ n. n < length self.now) }
        ensures tree { option_and_then (tree_at self.now) result ≡ tree_named name.now self.now }
    {
        match number_of_key(self.trees.as_slice(), name) {
            Some(at) => Some(at as u32),
            None => None,
        }
    }

    /// The name of a tree.
    pub fn name(&self, n: u32) -> &str
        requires { n < length self.now }
        ensures { Some result.now ≡ tree_name_at self.now n }
    {
        self.trees[n as usize].0.as_str()
    }

    /// A tree.
    pub fn tree(&self, n: u32) -> &Tree
        requires { n < length self.now }
        ensures { Some result.now ≡ tree_at self.now n }
    {
        &self.trees[n as usize].1
    }
}
