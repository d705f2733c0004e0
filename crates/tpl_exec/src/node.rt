ghost use Rattle.std.specs.Prelude.{◌≡◌};
ghost use Rattle.tpl_exec.specs.Machine.{tree_cursor};
ghost use Rattle.tpl_exec.specs.MachineView.{body_nodes, cursor_at, IsNode};
ghost use Rattle.tpl_exec.specs.Meaning.{run_nodes_of_tree};
ghost use Rattle.tpl_tree.specs.Forests.{tree_named};

use tpl_tree::{Forest, NodeKind, Tree};

/// The body of a template: its name and its tree, which a forest may lack.
#[derive(Clone, Copy, Drop)]
pub(crate) struct NodeBody<'d> {
    pub(crate) name: &'d str,
    pub(crate) tree: Option<&'d Tree>,
}

/// A node of a body, with the numbers of its first part, of its `else` part, and of what follows it.
#[derive(Clone, Copy, Drop)]
pub(crate) struct Node<'d> {
    pub(crate) number: u32,
    pub(crate) line: u32,
    pub(crate) kind: &'d NodeKind,
    pub(crate) first: Option<u32>,
    pub(crate) other: Option<u32>,
    pub(crate) next: Option<u32>,
}

/// The node of a body with a number, or none where there is no such node.
pub(crate) fn node_at<'d>(body: NodeBody<'d>, number: Option<u32>) -> Option<Node<'d>>
    ensures { IsNode result (body_nodes body.entry) number }
{
    match (body.tree, number) {
        (Some(tree), Some(number)) => {
            if number >= tree.count() {
                return None;
            }
            Some(Node {
                number,
                line: tree.line(number),
                kind: tree.kind(number),
                first: tree.child(number, 0),
                other: tree.child(number, 1),
                next: tree.next(number),
            })
        }
        (_, _) => None,
    }
}

/// The body of a template by its name.
pub(crate) fn body_named<'d>(forest: &'d Forest, name: &'d str) -> NodeBody<'d>
    ensures name { result.name.now ≡ name.now }
    ensures nodes { body_nodes result ≡ run_nodes_of_tree (tree_named name.now forest.now) }
{
    match forest.find(name) {
        Some(number) => NodeBody {
            name,
            tree: Some(forest.tree(number)),
        },
        None => NodeBody { name, tree: None },
    }
}

/// The number of the first node of a body, or none where it has no nodes.
pub(crate) fn first_of(body: NodeBody<'_>) -> Option<u32>
    ensures { cursor_at (body_nodes body.entry) result ≡ tree_cursor 0 (body_nodes body.entry) }
{
    match body.tree {
        Some(tree) => tree.first(),
        None => None,
    }
}
