ghost use Rattle.std.specs.Prelude.{◌≡◌, ◌<◌, ◌++◌, ◌∷◌, [], IfOk, IfSome, OnOk};
ghost use Rattle.tpl_tree.specs.Trees.{nodes_from, nodes_size};
ghost use Rattle.tpl_paths.specs.Edges.{finish_point};
ghost use Rattle.tpl_paths.specs.EdgeViews.{begin_at, control_edges, edges_view_at, own_edges, range_edges, read_edges};
ghost use Rattle.tpl_paths.specs.Edges as spec;

use crate::choice::Way;
use crate::edge::Edge;
use crate::point::Point;
use std::alloc::{AllocError, Global};
use tpl_tree::{NodeKind, Tree};

// Where nodes begin.
fn begin(node: Option<u32>, to: Point) -> Point
    ensures { result ≡ begin_at node to }
{
    match node {
        Some(n) => Point::Before(n),
        None => to,
    }
}

// Adds an edge.
fn add(edges: &mut Vec<Edge>, edge: Edge) -> Result<(), AllocError>
    ensures added { OnOk result (edges.new.items
        ≡ edges.old.items ++ edge ∷ []) }
{
    edges.push(edge)?;
    Ok(())
}

/// Adds the edges of the nodes from a number on.
#[cycle(add)]
pub fn add_edges(
    tree: &Tree,
    start: Option<u32>,
    to: Point,
    out: Point,
    on: Point,
    edges: &mut Vec<Edge>,
) -> Result<(), AllocError>
    requires { IfSome start (λ n. n < nodes_size tree.now.nodes) }
    ensures added { OnOk result (edges.new.items
        ≡ edges.old.items ++ read_edges (edges_view_at tree.now.nodes start to out on)) }
{
    let mut node = start;
    while let Some(n) = node {
        let next = tree.next(n);
        add_node(tree, n, begin(next, to), out, on, edges)?;
        node = next;
    }
    Ok(())
}

// Adds the edges of a node.
#[cycle(add)]
fn add_node(
    tree: &Tree,
    n: u32,
    to: Point,
    out: Point,
    on: Point,
    edges: &mut Vec<Edge>,
) -> Result<(), AllocError>
    requires { n < nodes_size tree.now.nodes }
    ensures added { OnOk result (edges.new.items
        ≡ edges.old.items ++ read_edges (own_edges (nodes_from tree.now.nodes n) n to out on)) }
{
    match tree.kind(n) {
        NodeKind::Text(_) => add(edges, Edge::Writes(n, to)),
        NodeKind::Action(_) => add(edges, Edge::Fills(n, to)),
        NodeKind::Declare(_, _) => add(edges, Edge::Passes(Point::Before(n), to)),
        NodeKind::Assign(_, _) => add(edges, Edge::Passes(Point::Before(n), to)),
        NodeKind::If(_, _) => add_control(tree, n, to, out, on, edges),
        NodeKind::With(_, _) => add_control(tree, n, to, out, on, edges),
        NodeKind::Range(_, _, _) => add_range(tree, n, to, out, on, edges),
        NodeKind::Break => add(edges, Edge::Passes(Point::Before(n), out)),
        NodeKind::Continue => add(edges, Edge::Passes(Point::Before(n), on)),
        NodeKind::Template(_, _) => add(edges, Edge::Calls(n, to)),
    }
}

// Adds the edges of an `if` or a `with`.
#[cycle(add)]
fn add_control(
    tree: &Tree,
    n: u32,
    to: Point,
    out: Point,
    on: Point,
    edges: &mut Vec<Edge>,
) -> Result<(), AllocError>
    requires { n < nodes_size tree.now.nodes }
    ensures added { OnOk result (edges.new.items
        ≡ edges.old.items ++ read_edges (control_edges tree.now.nodes n to out on)) }
{
    let first = tree.child(n, 0);
    let other = tree.child(n, 1);
    let past = Point::Past(n);
    add(
        edges,
        Edge::Picks(Point::Before(n), Way::Then, begin(first, past)),
    )?;
    add(
        edges,
        Edge::Picks(Point::Before(n), Way::Else, begin(other, past)),
    )?;
    add(edges, Edge::Passes(past, to))?;
    add_edges(tree, first, past, out, on, edges)?;
    add_edges(tree, other, past, out, on, edges)
}

// Adds the edges of a range.
#[cycle(add)]
fn add_range(
    tree: &Tree,
    n: u32,
    to: Point,
    out: Point,
    on: Point,
    edges: &mut Vec<Edge>,
) -> Result<(), AllocError>
    requires { n < nodes_size tree.now.nodes }
    ensures added { OnOk result (edges.new.items
        ≡ edges.old.items ++ read_edges (range_edges tree.now.nodes n to out on)) }
{
    let first = tree.child(n, 0);
    let other = tree.child(n, 1);
    let past = Point::Past(n);
    let again = Point::Again(n);
    let head = Point::Head(n);
    add(edges, Edge::Passes(Point::Before(n), head))?;
    add(edges, Edge::Passes(again, head))?;
    add(edges, Edge::Picks(head, Way::Turn, begin(first, again)))?;
    add(
        edges,
        Edge::Picks(Point::Before(n), Way::Done, begin(other, past)),
    )?;
    add(edges, Edge::Picks(again, Way::Done, past))?;
    add(edges, Edge::Passes(past, to))?;
    add_edges(tree, first, again, past, again, edges)?;
    add_edges(tree, other, past, out, on, edges)
}

/// The edges of a template, each once, in the order of its nodes. Fails only if allocation fails. Takes time in proportion to the number of
/// nodes. A template without controls has an edge for each node, and its edges take no more room than that.
pub fn edges_of(alloc: Global, tree: &Tree) -> Result<Vec<Edge>, AllocError>
    ensures { IfOk result (λ edges. edges.items
        ≡ read_edges (spec.edges_of tree.now.nodes 0 finish_point finish_point finish_point)) }
{
    let mut edges = Vec::with_capacity(alloc, tree.count() as usize)?;
    add_edges(
        tree,
        tree.first(),
        Point::Finish,
        Point::Finish,
        Point::Finish,
        &mut edges,
    )?;
    Ok(edges)
}
