ghost use Rattle.std.specs.Prelude.{◌<◌};
ghost use Rattle.tpl_tree.specs.Trees.{nodes_size};

use crate::files::{file_of, forest_of};
use crate::pipes::put_quoted;
use case_table::{CaseOutput, CaseRow, CaseStop};
use std::alloc::{AllocError, Global};
use tpl_parse::File;
use tpl_tree::{Forest, NodeKind, Tree};

/// Writes what a call of `tpl_tree` gives: of the tree of a template's body its `numbers`, the `lines` of its texts, or its
/// `copies`; the `forest` of files, which are pairs of a name and a text, or what a `find` of a name in it gives.
pub fn put_trees(out: &mut CaseOutput, call: &str, row: &CaseRow) -> Result<(), CaseStop> {
    match call {
        "forest" | "find" => match forest_of(out.alloc(), row.list(0)?)? {
            Some(forest) if call == "find" => out.put_number(forest.find(row.text(1)?)),
            Some(forest) => put_forest(out, &forest),
            None => return Err(CaseStop::Form),
        },
        call => {
            let file = template_of(out.alloc(), row.text(0)?)?;
            put_body(out, call, body_of(&file)?)?;
        }
    }
    Ok(())
}

fn put_body(out: &mut CaseOutput, call: &str, tree: &Tree) -> Result<(), CaseStop> {
    match call {
        "numbers" => put_tree(out, tree),
        "lines" => put_lines(out, tree),
        "copies" => put_copies(out, tree),
        _ => return Err(CaseStop::Form),
    }
    Ok(())
}

/// The definitions of a template with a text that is not refused.
pub fn template_of(alloc: Global, text: &str) -> Result<File, CaseStop> {
    match file_of(alloc, "a", text)? {
        Some(file) => Ok(file),
        None => Err(CaseStop::Form),
    }
}

/// The tree of a file's own body.
pub fn body_of(file: &File) -> Result<&Tree, CaseStop> {
    match file.defs.as_slice().last() {
        Some(def) => Ok(&def.tree),
        None => Err(CaseStop::Form),
    }
}

// Writes the number of trees, and after it each tree with its number, its name, the number by which it is found, and
// whether it is copied.
fn put_forest(out: &mut CaseOutput, forest: &Forest) {
    let count = forest.count();
    out.put_made(format!(in out.alloc(); "trees {count}"));
    for n in 0..forest.count() {
        let (name, tree) = (forest.name(n as u32), forest.tree(n as u32));
        out.put_made(format!(in out.alloc(); "\n{n} {name:?} found "));
        out.put_number(forest.find(name));
        out.put(if is_copied(out, tree) {
            ", copied, "
        } else {
            ", "
        });
        put_tree(out, tree);
    }
}

// Writes how many nodes a tree has, its first one, the line on which it ends, and a line for each node: its number, kind
// and line, the first nodes of its parts 0, 1 and 2, and the next node.
fn put_tree(out: &mut CaseOutput, tree: &Tree) {
    let (count, end) = (tree.count(), tree.end_line());
    out.put_made(format!(in out.alloc(); "nodes {count}, first "));
    out.put_number(tree.first());
    out.put_made(format!(in out.alloc(); ", end {end}"));
    for node in 0..tree.count() {
        out.put_made(format!(in out.alloc(); "\n{node} "));
        put_kind(out, tree.kind(node));
        put_number(out, Some(tree.line(node)));
        for part in 0..3 {
            put_number(out, tree.child(node, part));
        }
        put_number(out, tree.next(node));
    }
}

fn put_number(out: &mut CaseOutput, number: Option<u32>) {
    out.put(" ");
    out.put_number(number);
}

// Writes what a node is: a text, or a word, with the name where it calls a template.
fn put_kind(out: &mut CaseOutput, kind: &NodeKind) {
    match kind {
        NodeKind::Text(text) => put_quoted(out, text),
        NodeKind::Template(name, _) => {
            out.put("TEMPLATE ");
            put_quoted(out, name.get());
        }
        NodeKind::Action(_) => out.put("ACTION"),
        NodeKind::Declare(_, _) => out.put("DECLARE"),
        NodeKind::Assign(_, _) => out.put("ASSIGN"),
        NodeKind::If(_, _) => out.put("IF"),
        NodeKind::With(_, _) => out.put("WITH"),
        NodeKind::Range(_, _, _) => out.put("RANGE"),
        NodeKind::Break => out.put("BREAK"),
        NodeKind::Continue => out.put("CONTINUE"),
    }
}

// Writes the lines of the bytes of each text, and of the place after it.
fn put_lines(out: &mut CaseOutput, tree: &Tree) {
    for node in 0..tree.count() {
        put_bytes(out, tree, node);
    }
}

fn put_bytes(out: &mut CaseOutput, tree: &Tree, node: u32)
    requires { node < nodes_size tree.now.nodes }
{
    if let NodeKind::Text(text) = tree.kind(node) {
        for byte in 0..text.as_str().len() as u32 + 1 {
            out.put_between(" ");
            out.put_number(Some(tree.line_at(node, byte)));
        }
    }
}

// Writes how many nodes a tree has, and whether its copy, and those of what its nodes are, are shown as what was copied.
fn put_copies(out: &mut CaseOutput, tree: &Tree) {
    let mut copied = is_copied(out, tree);
    for node in 0..tree.count() {
        copied = copied && is_kind_copied(out, tree.kind(node));
    }
    let count = tree.count();
    out.put_made(format!(in out.alloc(); "nodes {count}, "));
    out.put(if copied { "copied" } else { "not copied" });
}

/// Whether the copy of a tree is shown as the tree.
pub fn is_copied(out: &CaseOutput, tree: &Tree) -> bool {
    match tree.copy(out.alloc()) {
        Ok(copy) => are_same(
            format!(in out.alloc(); "{tree:?}"),
            format!(in out.alloc(); "{copy:?}"),
        ),
        Err(_) => false,
    }
}

fn is_kind_copied(out: &CaseOutput, kind: &NodeKind) -> bool {
    match kind.copy(out.alloc()) {
        Ok(copy) => are_same(
            format!(in out.alloc(); "{kind:?}"),
            format!(in out.alloc(); "{copy:?}"),
        ),
        Err(_) => false,
    }
}

fn are_same(shown: Result<String, AllocError>, copied: Result<String, AllocError>) -> bool {
    match (shown, copied) {
        (Ok(shown), Ok(copied)) => shown == copied && !shown.is_empty(),
        _ => false,
    }
}
