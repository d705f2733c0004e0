ghost use Rattle.std.specs.Prelude.{◌≡◌, ℕ, List, Option, Some, slice_get};
ghost use Rattle.tpl_paths.specs.EdgeViews.{edge_at};
ghost use Rattle.place_flow.specs.HtmlCovering.{behind_hole, behind_text};
ghost use Rattle.tpl_tree.specs.Forests.{ForestData, number_named};
ghost use Rattle.tpl_tree.specs.Trees.{head_kind, nodes_from};
ghost use Rattle.tpl_tree.specs.declared.node_kind.NodeKind.TheVariants as kind;
ghost use Rattle.tpl_tree.specs.declared.pipe.Pipe.{Pipe as SpecPipe};
ghost use Rattle.place_flow.specs.FlowViews.{IsNodeNumber};
ghost use Rattle.place_flow.specs.Flows.{edges_at, nodes_at};
ghost use Rattle.place_flow.specs.Transfer.{edge_step, enters_or_refused, reaches_or_refused, step_of, use_of_node};
ghost use Rattle.tpl_paths.specs.Edges as edges;
ghost use Rattle.html_step.specs.Holes as holes;
ghost use Rattle.html_step.specs.Steps as steps;
ghost use Rattle.place_flow.specs.Transfer as spec;

use crate::flows::Flows;
use crate::points::edge_ends;
use crate::step::EdgeStep;
use crate::{EscaperUse, Predefined, escaper_use};
use html_step::{Escaper, after_hole, after_text, may_escape};
use place_core::Place;
use tpl_paths::{Edge, Point};
use tpl_tree::{Forest, NodeKind, Tree};

/// Where an edge of a template leads from a place; the edge is given by its number. It is refused:
///
/// - where the place refuses the text or the hole;
/// - where the forest lacks the template that is called;
/// - where the node before which the edge begins names a predefined escaper that may not stand there.
///
/// Takes no memory, and for a text time in proportion to its length.
pub fn transfer(flows: &Flows, template: u32, number: usize, place: Place) -> EdgeStep
    ensures { (e : edges.Edge) → slice_get (edges_at flows.now template) number ≡ Some e
        → result ≡ step_of flows.now template e place }
{
    let forest = flows.forest();
    if template as usize >= forest.count() {
        return EdgeStep::Refused;
    }
    match flows.edge(template, number) {
        Some(edge) => step(forest, forest.tree(template), edge, place),
        None => EdgeStep::Refused,
    }
}

// Where an edge of a tree leads.
fn step(forest: &Forest, tree: &Tree, edge: Edge, place: Place) -> EdgeStep
    ensures { (t : ℕ) (e : edges.Edge) → nodes_at forest.now t ≡ tree.now.nodes → edge_at e ≡ edge
        → IsNodeNumber tree.now.nodes e → result ≡ step_of forest.now t e place }
{
    let (from, _) = edge_ends(edge);
    if may_use(place, use_at(tree, from)) {
        edge_leads(forest, tree, edge, place)
    } else {
        EdgeStep::Refused
    }
}

// How the node before which a point stands uses the predefined escapers.
fn use_at(tree: &Tree, point: Point) -> EscaperUse
    ensures { (forest : ForestData) (t : ℕ) → nodes_at forest t ≡ tree.now.nodes
        → result ≡ spec.use_at forest t point }
{
    match point {
        Point::Before(n) => use_of(tree, n),
        _ => EscaperUse::Nothing,
    }
}

fn use_of(tree: &Tree, node: u32) -> EscaperUse
    ensures { result ≡ use_of_node (head_kind (nodes_from tree.now.nodes node)) }
{
    if node >= tree.count() {
        return EscaperUse::Nothing;
    }
    escaper_use(tree.kind(node))
}

/// Whether a use of the predefined escapers may stand in a place. Does not allocate.
pub fn may_use(place: Place, used: EscaperUse) -> bool
    ensures { result ≡ spec.may_use place used }
{
    match used {
        EscaperUse::Nothing => true,
        EscaperUse::Last(Predefined::Html) => may_escape(place, Escaper::Html),
        EscaperUse::Last(Predefined::Urlquery) => may_escape(place, Escaper::Urlquery),
        EscaperUse::Misused => false,
    }
}

// What an edge makes of a place.
fn edge_leads(forest: &Forest, tree: &Tree, edge: Edge, place: Place) -> EdgeStep
    ensures { (e : edges.Edge) → edge_at e ≡ edge → IsNodeNumber tree.now.nodes e
        → result ≡ edge_step forest.now e place }
{
    match edge {
        Edge::Writes(node, _) => text_leads(tree, node, place),
        Edge::Fills(_, _) => hole_leads(place),
        Edge::Calls(node, _) => call_leads(forest, tree, node, place),
        Edge::Picks(_, _, _) => EdgeStep::Reaches(place),
        Edge::Passes(_, _) => EdgeStep::Reaches(place),
    }
}

// What a text makes of a place.
fn text_leads(tree: &Tree, node: u32, place: Place) -> EdgeStep
    ensures { (bytes : List ℕ) → head_kind (nodes_from tree.now.nodes node) ≡ Some (kind.Text bytes)
        → result ≡ reaches_or_refused (behind_text (steps.after_text bytes place)) }
{
    if node >= tree.count() {
        return EdgeStep::Refused;
    }
    match tree.kind(node) {
        NodeKind::Text(text) => match after_text(place, text.as_str()) {
            Ok(after) => EdgeStep::Reaches(after),
            Err(_) => EdgeStep::Refused,
        },
        _ => EdgeStep::Refused,
    }
}

// What a hole makes of a place.
fn hole_leads(place: Place) -> EdgeStep
    ensures { result ≡ reaches_or_refused (behind_hole (holes.after_hole place)) }
{
    match after_hole(place) {
        Ok((after, _)) => EdgeStep::Reaches(after),
        Err(_) => EdgeStep::Refused,
    }
}

// What a call makes of a place.
fn call_leads(forest: &Forest, tree: &Tree, node: u32, place: Place) -> EdgeStep
    ensures { (name : List ℕ) (pipe : Option SpecPipe)
        → head_kind (nodes_from tree.now.nodes node) ≡ Some (kind.Template name pipe)
        → result ≡ enters_or_refused (number_named name forest.now) place }
{
    if node >= tree.count() {
        return EdgeStep::Refused;
    }
    match tree.kind(node) {
        NodeKind::Template(name, _) => match forest.find(name.get().as_str()) {
            Some(callee) => EdgeStep::Enters(callee, place),
            None => EdgeStep::Refused,
        },
        _ => EdgeStep::Refused,
    }
}
