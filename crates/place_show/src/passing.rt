ghost use Rattle.std.specs.Prelude.{◌≡◌, IfSome, IsTrue, Some, slice_get};
ghost use Rattle.place_flow.specs.Flows.{edges_at};
ghost use Rattle.place_show.specs.Together.{IsPassedEdge, IsQuiet, PassedNode, WritesNode};
ghost use Rattle.place_show.specs.Together as spec;
ghost use Rattle.tpl_paths.specs.EdgeViews.{edge_at};
ghost use Rattle.tpl_paths.specs.Edges as edges;

use crate::beginnings::passed;
use place_core::Place;
use place_flow::Flows;
use tpl_paths::Edge;
use tpl_tree::NodeKind;

/// The later one of two points, by the places of both paths there.
pub(crate) fn latest(
    last: Option<(Place, Place)>,
    found: Option<(Place, Place)>,
) -> Option<(Place, Place)>
    ensures { result ≡ spec.latest last found }
{
    match found {
        Some(_) => found,
        None => last,
    }
}

fn writes(edge: Edge) -> Option<u32>
    ensures { IfSome result (λ node. (e : edges.Edge) → edge_at e ≡ edge → WritesNode node e) }
{
    match edge {
        Edge::Writes(node, _) => Some(node),
        _ => None,
    }
}

fn is_quiet(edge: Edge) -> bool
    ensures { IsTrue result → (e : edges.Edge) → edge_at e ≡ edge → IsQuiet e }
{
    match edge {
        Edge::Calls(_, _) => true,
        Edge::Picks(_, _, _) => true,
        Edge::Passes(_, _) => true,
        _ => false,
    }
}

// Their places at the last point of the text of a node at which they are apart, where two paths go on in it as ones that met apart.
fn passed_node(
    flows: &Flows,
    template: u32,
    node: u32,
    one: Place,
    other: Place,
    apart: bool,
) -> Option<Option<(Place, Place)>>
    ensures { IfSome result (PassedNode apart flows.now template node one other) }
{
    let forest = flows.forest();
    if template as usize >= forest.count() {
        return None;
    }
    let tree = forest.tree(template);
    if node >= tree.count() {
        return None;
    }
    match tree.kind(node) {
        NodeKind::Text(text) => passed(one, other, text.as_str(), apart),
        _ => None,
    }
}

/// Their places at the last point of the text of an edge at which they are apart, by the edge's number, where two paths go on along it as ones
/// that met apart; if they have not come apart before it, they do in it. It takes time in proportion to the length of the text.
pub(crate) fn passed_edge(
    flows: &Flows,
    template: u32,
    number: usize,
    one: Place,
    other: Place,
    apart: bool,
) -> Option<Option<(Place, Place)>>
    ensures { IfSome result (λ found. (e : edges.Edge)
        → slice_get (edges_at flows.now template) number ≡ Some e
        → IsPassedEdge apart e one other found) }
{
    let Some(edge) = flows.edge(template, number) else {
        return None;
    };
    if let Some(node) = writes(edge) {
        return passed_node(flows, template, node, one, other, apart);
    }
    if !apart {
        return None;
    }
    if !is_quiet(edge) {
        return None;
    }
    Some(None)
}
