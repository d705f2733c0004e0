ghost use Rattle.std.specs.Prelude.{◌≡◌, ◌+◌, ◌<◌, ◌≤◌, ◌^◌, nat_lt, if◌then◌else◌, length, Some};
ghost use Rattle.std.specs.Prelude.{None, IfOk};
ghost use Rattle.tpl_tree.specs.Listing.{nodes_of, IsListing, IsTreeEntry};
ghost use Rattle.tpl_tree.specs.Trees.{nodes_size, nodes_from, tree_part, rest_of, head_kind};
ghost use Rattle.tpl_tree.specs.Trees.{head_line, head_seams, node_head_text, text_line, node_number};
ghost use Rattle.tpl_tree.specs.Trees.{child_number, next_number, IsFineTree, IsTextInBounds, NodeStands};

use crate::entry::Entry;
use crate::lines::line_in;
use crate::node_kind::NodeKind;
use page_io::Memory;
use std::alloc::Global;
use std::marker::Model;

/// The tree of a template. Contracts see it as `TreeData` of `specs/Trees.antt`.
#[derive(Debug, Drop)]
pub struct Tree {
    entries: Vec<Entry>,
    end_line: u32,
}

impl Model for Tree {
    ghost use Rattle.tpl_tree.specs.NodesCode.{tree_code};
    ghost use Rattle.tpl_tree.specs.Trees.{TreeData};

    ghost Value = { TreeData };

    ghost coded = { tree_code };

    ghost use Rattle.tpl_tree.specs.Listing.{nodes_of, IsListing};

    ghost view = { λ t. record { nodes = nodes_of t.entries.items; end_line = t.end_line } };

    ghost invariant = { λ t. IsListing t.entries.items };
}

impl Tree {
    // The tree of a list of its nodes.
    pub(crate) fn from_entries(entries: Vec<Entry>, end_line: u32) -> Tree
        requires { IsListing entries.items }
        ensures { result ≡ record { nodes = nodes_of entries.items; end_line = end_line } }
    {
        Tree { entries, end_line }
    }

    /// How many nodes the tree has. They are numbered from 0 in the order of the source: a node comes before its first
    /// part, this before its `else` part, and this before what follows the node.
    pub fn count(&self) -> u32
        ensures count { result ≡ nodes_size self.now.nodes }
        ensures fine { IsFineTree self.now.nodes }
    {
        self.entries.len() as u32
    }

    /// The number of the first node of the outermost part, or none where the tree has no nodes.
    pub fn first(&self) -> Option<u32>
        ensures number { result ≡ node_number self.now.nodes 0 }
        ensures stands { NodeStands self.now.nodes self.now.nodes result }
    {
        if self.entries.len() == 0 {
            return None;
        }
        Some(0)
    }

    /// What a node is. The pipe of a control is in it, its parts are not.
    pub fn kind(&self, node: u32) -> &NodeKind
        requires { node < nodes_size self.now.nodes }
        ensures kind { Some result.now ≡ head_kind (nodes_from self.now.nodes node) }
        ensures text { IsTextInBounds result.now }
    {
        &self.entry(node).kind
    }

    /// The line on which a node begins.
    pub fn line(&self, node: u32) -> u32
        requires { node < nodes_size self.now.nodes }
        ensures { result ≡ head_line (nodes_from self.now.nodes node) }
    {
        self.entry(node).line
    }

    /// The number of the first node of a node's part: part 0 is the first part of a control, part 1 its `else` part. None
    /// where that part is empty, for any other part, and for a node that has no parts.
    pub fn child(&self, node: u32, part: u32) -> Option<u32>
        requires { node < nodes_size self.now.nodes }
        ensures number { result ≡ child_number self.now.nodes node part }
        ensures stands { let nodes = tree_part part (nodes_from self.now.nodes node) in
            NodeStands self.now.nodes nodes result }
    {
        let entry = self.entry(node);
        match part {
            0 => number_if(entry.first, node + 1),
            1 => number_if(entry.other, node + 1 + entry.first),
            _ => None,
        }
    }

    /// The number of the next node of the same part, or none where the node is the last one of its part.
    pub fn next(&self, node: u32) -> Option<u32>
        requires { node < nodes_size self.now.nodes }
        ensures number { result ≡ next_number self.now.nodes node }
        ensures stands { let nodes = rest_of (nodes_from self.now.nodes node)
            in NodeStands self.now.nodes nodes result }
    {
        let entry = self.entry(node);
        let number = node + 1 + entry.first + entry.other;
        if entry.more {
            return Some(number);
        }
        None
    }

    /// The line of a byte of a text, its length standing for the offset after it. The time grows with the text and its
    /// seams. A node that is no text has no bytes, and gives the line on which it begins.
    pub fn line_at(&self, node: u32, byte: u32) -> u32
        requires node { node < nodes_size self.now.nodes }
        requires byte { byte ≤ length (node_head_text (nodes_from self.now.nodes node)) }
        ensures { let nodes = nodes_from self.now.nodes node in
            result ≡ text_line (node_head_text nodes) (head_line nodes) (head_seams nodes) byte }
    {
        let entry = self.entry(node);
        match &entry.kind {
            NodeKind::Text(text) => line_in(
                text.as_str().as_bytes(),
                entry.line,
                entry.seams.as_slice(),
                byte,
            ),
            _ => entry.line,
        }
    }

    /// The line on which the tree ends.
    pub fn end_line(&self) -> u32
        ensures { result ≡ self.now.end_line }
    {
        self.end_line
    }

    /// An equal tree, lines and seams included. Fails only if allocation fails.
    pub fn copy(&self, alloc: Global) -> Result<Tree, Memory>
        ensures { IfOk result (λ copy. copy ≡ self.now) }
    {
        let mut entries = Vec::new(alloc);
        for entry in self.entries.as_slice() {
            entries.push(entry.copy(alloc)?)?;
        }
        Ok(Tree {
            entries,
            end_line: self.end_line,
        })
    }

    // The entry of a node.
    fn entry(&self, node: u32) -> &Entry
        requires { node < nodes_size self.now.nodes }
        ensures entry { IsTreeEntry (nodes_from self.now.nodes node) result.now }
        ensures room { let nodes = nodes_from self.now.nodes node in
            node + nodes_size nodes ≤ nodes_size self.now.nodes }
        ensures sizes { let nodes = nodes_from self.now.nodes node in
            let parts = result.now.first + result.now.other in
            nodes_size nodes ≡ 1 + parts + nodes_size (rest_of nodes) }
        ensures fits { nodes_size self.now.nodes < 2 ^ 32 }
    {
        &self.entries[node as usize]
    }
}

// A number, where there are nodes.
fn number_if(nodes: u32, number: u32) -> Option<u32>
    ensures { result ≡ (if nat_lt 0 nodes then Some number else None) }
{
    if nodes > 0 {
        return Some(number);
    }
    None
}
