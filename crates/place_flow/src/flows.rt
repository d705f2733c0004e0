ghost use Rattle.std.specs.Prelude.{◌≡◌, IfOk, length, option_map, slice_get, Some};
ghost use Rattle.tpl_paths.specs.EdgeViews.{edge_at, read_edges};
ghost use Rattle.tpl_paths.specs.Edges.{part_begins, finish_point, from_of, to_of};
ghost use Rattle.place_flow.specs.Flows.{choice_of, edges_at, is_call_edge, nodes_at, points_of, start_at};
ghost use Rattle.tpl_tree.specs.Trees.{nodes_size};
ghost use Rattle.tpl_paths.specs.Edges as spec;

use crate::points::{edge_ends, point_count};
use page_io::Memory;
use std::alloc::Global;
use std::marker::Model;
use tpl_paths::{Edge, Point, Way, edges_of};
use tpl_tree::{Forest, Tree};

/// A forest with the edges of each of its templates. Contracts see it as the forest.
#[derive(Drop)]
pub struct Flows<'f> {
    forest: &'f Forest,
    edges: Vec<Vec<Edge>>,
}

impl<'f> Model for Flows<'f> {
    ghost use Rattle.std.specs.Coded.{coded_list, coded×, coded_ℕ};
    ghost use Rattle.tpl_tree.specs.Forests.{ForestData};
    ghost use Rattle.tpl_tree.specs.NodesCode.{tree_code};
    ghost use Rattle.place_flow.specs.FlowViews.{AreEdgesOf};

    ghost Value = { ForestData };

    ghost coded = { coded_list (coded× (coded_list coded_ℕ) tree_code) };

    ghost view = { λ f. f.forest.now };

    ghost invariant = { λ f. AreEdgesOf f.forest.now f.edges.items };
}

/// The flows of a forest. Fails only if allocation fails.
pub fn flows_of(alloc: Global, forest: &Forest) -> Result<Flows<'_>, Memory>
    ensures { IfOk result (λ flows. flows ≡ forest.now) }
{
    let mut edges = Vec::new(alloc);
    for t in 0..forest.count() {
        edges.push(edges_of(alloc, forest.tree(t as u32))?)?;
    }
    Ok(Flows { forest, edges })
}

impl<'f> Flows<'f> {
    /// The forest.
    pub fn forest(&self) -> &Forest
        ensures { result.now ≡ self.now }
    {
        self.forest
    }

    /// The point where a template begins. A template that the forest lacks begins where it ends.
    pub fn start(&self, template: u32) -> Point
        ensures { result ≡ start_at self.now template }
    {
        if template as usize >= self.forest.count() {
            return Point::Finish;
        }
        start_of(self.forest.tree(template))
    }

    /// How many nodes a template has.
    pub fn nodes(&self, template: u32) -> u32
        ensures { result ≡ nodes_size (nodes_at self.now template) }
    {
        if template as usize >= self.forest.count() {
            return 0;
        }
        self.forest.tree(template).count()
    }

    /// How many numbers the points of a template have.
    pub fn points(&self, template: u32) -> usize
        ensures { result ≡ points_of (nodes_at self.now template) }
    {
        if template as usize >= self.forest.count() {
            return 1;
        }
        point_count(self.forest.tree(template))
    }

    /// How many edges a template has.
    pub fn edge_count(&self, template: u32) -> usize
        ensures { result ≡ length (edges_at self.now template) }
    {
        self.edges(template).len()
    }

    /// The points from which and to which an edge of a template leads, by the edge's number.
    pub fn ends(&self, template: u32, number: usize) -> Option<(Point, Point)>
        ensures { result ≡ option_map (λ e. (from_of e, to_of e))
            (slice_get (edges_at self.now template) number) }
    {
        match self.edge(template, number) {
            Some(edge) => Some(edge_ends(edge)),
            None => None,
        }
    }

    /// Whether an edge of a template, by its number, is a call. There is none past the last one.
    pub fn is_call(&self, template: u32, number: usize) -> bool
        ensures { (e : spec.Edge) → slice_get (edges_at self.now template) number ≡ Some e
            → result ≡ is_call_edge e }
    {
        match self.edge(template, number) {
            Some(edge) => calls(edge),
            None => false,
        }
    }

    /// What an edge of a template, by its number, chooses: nothing where it is no choice, and past the last one.
    pub fn choice(&self, template: u32, number: usize) -> Option<Way>
        ensures { (e : spec.Edge) → slice_get (edges_at self.now template) number ≡ Some e
            → result ≡ choice_of e }
    {
        match self.edge(template, number) {
            Some(edge) => chooses(edge),
            None => None,
        }
    }

    /// An edge of a template, by its number.
    pub fn edge(&self, template: u32, number: usize) -> Option<Edge>
        ensures { result ≡ option_map edge_at (slice_get (edges_at self.now template) number) }
    {
        match self.edges(template).get(number) {
            Some(edge) => Some(*edge),
            None => None,
        }
    }

    // The edges of a template.
    fn edges(&self, template: u32) -> &[Edge]
        ensures { result.now ≡ read_edges (edges_at self.now template) }
    {
        match self.edges.get(template as usize) {
            Some(edges) => edges.as_slice(),
            None => &[],
        }
    }
}

// Whether an edge is a call.
fn calls(edge: Edge) -> bool
    ensures { (e : spec.Edge) → edge_at e ≡ edge → result ≡ is_call_edge e }
{
    match edge {
        Edge::Calls(_, _) => true,
        _ => false,
    }
}

// What an edge chooses.
fn chooses(edge: Edge) -> Option<Way>
    ensures { (e : spec.Edge) → edge_at e ≡ edge → result ≡ choice_of e }
{
    match edge {
        Edge::Picks(_, choice, _) => Some(choice),
        _ => None,
    }
}

// Where a tree begins.
fn start_of(tree: &Tree) -> Point
    ensures { result ≡ part_begins tree.now.nodes 0 finish_point }
{
    match tree.first() {
        Some(first) => Point::Before(first),
        None => Point::Finish,
    }
}
