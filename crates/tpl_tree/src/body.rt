ghost use Rattle.std.specs.Prelude.{◌≡◌, ◌+◌, ◌<◌, ◌≤◌, ◌^◌, [], length, false, All, IfOk, OnOk};
ghost use Rattle.std.specs.Prelude.{OnErr};
ghost use Rattle.tpl_tree.specs.Trees.{NodesData, no_nodes, node, alone, append, is_text_node};
ghost use Rattle.tpl_tree.specs.Listing.{linked};
ghost use Rattle.tpl_tree.specs.declared.node_kind.NodeKind.TheVariants as kind_of;

use crate::entry::Entry;
use crate::kept_seams::KeptSeams;
use crate::node_kind::NodeKind;
use crate::tree::Tree;
use page_io::{List, Memory, Text};
use std::alloc::Global;
use std::marker::Model;
use tpl_symbol::Seam;

/// A part of a tree that is being built: nodes in the order of the source. Contracts see them as `NodesData` of
/// `specs/Trees.antt`.
#[derive(Debug, Drop)]
pub struct TreeBuilder {
    entries: Vec<Entry>,
    // The number of the last node of the outermost part; 0 where there is none.
    last: usize,
}

impl Model for TreeBuilder {
    ghost use Rattle.tpl_tree.specs.NodesCode.{nodes_code};
    ghost use Rattle.tpl_tree.specs.Trees.{NodesData};

    ghost Value = { NodesData };

    ghost coded = { nodes_code };

    ghost use Rattle.tpl_tree.specs.Listing.{nodes_of, IsBody};

    ghost view = { λ b. nodes_of b.entries.items };

    ghost invariant = { λ b. IsBody b.entries.items b.last };
}

impl TreeBuilder {
    /// No nodes, which does not allocate.
    pub fn new(alloc: Global) -> TreeBuilder
        ensures { result ≡ no_nodes }
    {
        TreeBuilder {
            entries: Vec::new(alloc),
            last: 0,
        }
    }

    /// Appends a text that begins on a line and has seams, or leaves the nodes as they were when memory runs out.
    pub fn push_text(&mut self, text: Text, line: u32, seams: List<Seam>) -> Result<(), Memory>
        requires some { 0 < length text }
        requires bound { length text ≤ 2 ^ 20 }
        requires line { line + length text < 2 ^ 32 }
        requires seams { All (λ s. s.line + length text < 2 ^ 32) seams }
        ensures ok { let more = alone (kind_of.Text text) line seams in
            OnOk result (self.new ≡ append self.old more) }
        ensures err { OnErr result (self.new ≡ self.old) }
    {
        let alloc = *self.entries.allocator();
        let node = text_node(alloc, text, line, seams)?;
        self.join(node)
    }

    /// Appends a node that is no text, with its first part and its `else` part, which are empty where it has none; or
    /// leaves the nodes as they were when memory runs out.
    pub fn push(
        &mut self,
        kind: NodeKind,
        line: u32,
        first: TreeBuilder,
        other: TreeBuilder,
    ) -> Result<(), Memory>
        requires { is_text_node kind ≡ false }
        ensures ok { let more = node kind line [] first other no_nodes in
            OnOk result (self.new ≡ append self.old more) }
        ensures err { OnErr result (self.new ≡ self.old) }
    {
        let alloc = *self.entries.allocator();
        let node = control_node(alloc, kind, line, first, other)?;
        self.join(node)
    }

    /// Appends a node that is no text and has no parts, or leaves the nodes as they were when memory runs out.
    #[inline(always)]
    pub fn push_alone(&mut self, kind: NodeKind, line: u32) -> Result<(), Memory>
        requires { is_text_node kind ≡ false }
        ensures ok { OnOk result (self.new ≡ append self.old (alone kind line [])) }
        ensures err { OnErr result (self.new ≡ self.old) }
    {
        let count = self.entries.len();
        if count >= u32::MAX as usize {
            return Err(Memory);
        }
        self.entries.push(Entry {
            kind,
            line,
            seams: KeptSeams::none(),
            first: 0,
            other: 0,
            more: false,
        })?;
        link(&mut self.entries, count, self.last);
        self.last = count;
        Ok(())
    }

    // Appends the nodes of another part, or leaves those of this one as they were when memory runs out.
    fn join(&mut self, more: TreeBuilder) -> Result<(), Memory>
        ensures ok { OnOk result (self.new ≡ append self.old more) }
        ensures err { OnErr result (self.new ≡ self.old) }
    {
        let TreeBuilder {
            entries: mut added,
            last,
        } = more;
        let count = self.entries.len();
        if added.len() == 0 {
            return Ok(());
        }
        if added.len() > u32::MAX as usize - count {
            return Err(Memory);
        }
        self.entries.append(&mut added)?;
        link(&mut self.entries, count, self.last);
        self.last = count + last;
        Ok(())
    }

    /// The tree of these nodes, which ends on a line. It does not allocate.
    pub fn into_tree(self, end_line: u32) -> Tree
        ensures { result ≡ record { nodes = self; end_line = end_line } }
    {
        let mut entries = self.entries;
        entries.shrink_to_fit();
        Tree::from_entries(entries, end_line)
    }
}

// Tells the entry `last`, if it is one of the first `count` ones, that a node follows it.
#[inline(always)]
fn link(entries: &mut Vec<Entry>, count: usize, last: usize)
    requires { count ≤ length entries.old.items }
    ensures { entries.new.items ≡ linked entries.old.items count last }
{
    if last < count {
        entries[last].more = true;
    }
}

// A text alone. Fails only if allocation fails.
fn text_node(alloc: Global, text: Text, line: u32, seams: List<Seam>) -> Result<TreeBuilder, Memory>
    requires some { 0 < length text }
    requires bound { length text ≤ 2 ^ 20 }
    requires line { line + length text < 2 ^ 32 }
    requires seams { All (λ s. s.line + length text < 2 ^ 32) seams }
    ensures { IfOk result (λ b. b ≡ alone (kind_of.Text text) line seams) }
{
    let seams = KeptSeams::new(alloc, seams)?;
    let mut entries = Vec::new(alloc);
    entries.push(Entry {
        kind: NodeKind::Text(text),
        line,
        seams,
        first: 0,
        other: 0,
        more: false,
    })?;
    Ok(TreeBuilder { entries, last: 0 })
}

// Another node alone, with its parts. Fails only if allocation fails.
fn control_node(
    alloc: Global,
    kind: NodeKind,
    line: u32,
    first: TreeBuilder,
    other: TreeBuilder,
) -> Result<TreeBuilder, Memory>
    requires { is_text_node kind ≡ false }
    ensures { IfOk result (λ b. b ≡ node kind line [] first other no_nodes) }
{
    let mut first = first.entries;
    let mut other = other.entries;
    let count = first.len() + other.len();
    if count >= u32::MAX as usize {
        return Err(Memory);
    }
    let mut entries = Vec::with_capacity(alloc, count + 1)?;
    entries.push(Entry {
        kind,
        line,
        seams: KeptSeams::none(),
        first: first.len() as u32,
        other: other.len() as u32,
        more: false,
    })?;
    entries.append(&mut first)?;
    entries.append(&mut other)?;
    Ok(TreeBuilder { entries, last: 0 })
}
