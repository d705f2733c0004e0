ghost use Rattle.std.specs.Prelude.{◌≡◌, ◌++◌, ◌<◌, true, false, Some, IfOk, IfSome, OnOk};
ghost use Rattle.tpl_print.specs.Parsed.{IsParsed, ParsesAs};
ghost use Rattle.tpl_print.specs.Spelling.{nodes_text, printed_node, part_at, else_mark, parting, parting_at};
ghost use Rattle.tpl_tree.specs.Trees.{nodes_size, nodes_from};

use crate::node::{is_control, is_text, push_head};
use page_io::{Memory, Text};
use std::alloc::Global;
use tpl_tree::Tree;

/// The tree as the text of a template file. Where the tree is one that parsing gives, which is the body of a file, or of a
/// `define` or `block`, the text is a file whose own body is the same tree, lines apart, whatever name the file has. So
/// `tpl_parse::parse_file` gives it, where the text has no more than the `tpl_token::MAX_TEXT` bytes that it takes, and
/// memory suffices. Fails only if allocation fails.
#[tactic(auto, using(crate::proofs::ReadsBack::reads_back))]
pub fn print_tree(alloc: Global, tree: &Tree) -> Result<Text, Memory>
    ensures spelling { IfOk result (λ printed. printed ≡ nodes_text false tree.now.nodes) }
    ensures reads { IsParsed tree.now.nodes →
        IfOk result (λ printed. ParsesAs printed tree.now.nodes) }
{
    let mut out = Text::new(alloc);
    push_part(alloc, &mut out, tree, tree.first(), false)?;
    Ok(out)
}

// Appends the nodes of a part from one on. After the last one an action follows or not.
#[cycle(part)]
fn push_part(
    alloc: Global,
    out: &mut Text,
    tree: &Tree,
    first: Option<u32>,
    followed: bool,
) -> Result<(), Memory>
    requires { IfSome first (λ n. n < nodes_size tree.now.nodes) }
    ensures { OnOk result
        (out.new ≡ out.old ++ nodes_text followed (part_at tree.now.nodes first)) }
{
    let mut number = first;
    while let Some(node) = number {
        number = tree.next(node);
        push_node(alloc, out, tree, node, number.is_some() || followed)?;
        push_parting(out, tree, node, number)?;
    }
    Ok(())
}

// Appends a node with its parts. After it an action follows or not.
#[cycle(part)]
fn push_node(
    alloc: Global,
    out: &mut Text,
    tree: &Tree,
    node: u32,
    followed: bool,
) -> Result<(), Memory>
    requires { node < nodes_size tree.now.nodes }
    ensures { OnOk result
        (out.new ≡ out.old ++ printed_node followed (nodes_from tree.now.nodes node)) }
{
    let kind = tree.kind(node);
    push_head(alloc, out, kind, followed)?;
    if !is_control(kind) {
        return Ok(());
    }
    push_part(alloc, out, tree, tree.child(node, 0), true)?;
    let other = tree.child(node, 1);
    push_else(out, other.is_some())?;
    push_part(alloc, out, tree, other, true)?;
    out.push_str("{{ end }}")
}

// Appends what stands before an `else` part.
fn push_else(out: &mut Text, nodes: bool) -> Result<(), Memory>
    ensures { OnOk result (out.new ≡ out.old ++ else_mark nodes) }
{
    if nodes {
        return out.push_str("{{ else }}");
    }
    Ok(())
}

// Appends what parts a node from the next one.
fn push_parting(out: &mut Text, tree: &Tree, node: u32, next: Option<u32>) -> Result<(), Memory>
    requires node { node < nodes_size tree.now.nodes }
    requires next { IfSome next (λ n. n < nodes_size tree.now.nodes) }
    ensures { OnOk result (out.new ≡ out.old ++ parting_at tree.now.nodes node next) }
{
    if !is_text(tree.kind(node)) {
        return Ok(());
    }
    match next {
        Some(next) => push_between(out, is_text(tree.kind(next))),
        None => Ok(()),
    }
}

fn push_between(out: &mut Text, text: bool) -> Result<(), Memory>
    ensures { OnOk result (out.new ≡ out.old ++ parting true text) }
{
    if text {
        return out.push_str("{{ define \"\" }}{{ end }}");
    }
    Ok(())
}
