ghost use Rattle.std.specs.Prelude.{◌<◌};
ghost use Rattle.tpl_tree.specs.Trees.{nodes_size};

use crate::pipes::{put_pipe, put_quoted, put_variable};
use case_table::CaseOutput;
use page_io::Text;
use tpl_tree::{NodeKind, Pipe, Tree};

/// Writes each node of a tree on a line: its number, what it is, the line on which it stands where this is asked for, and
/// where its parts and the next node are.
pub fn put_nodes(out: &mut CaseOutput, tree: &Tree, has_lines: bool) {
    for node in 0..tree.count() {
        put_place(out, "\n", Some(node));
        out.put(" ");
        put_kind(out, tree.kind(node));
        if has_lines {
            put_place(out, " line=", Some(tree.line(node)));
        }
        put_around(out, tree, node);
    }
}

fn put_around(out: &mut CaseOutput, tree: &Tree, node: u32)
    requires { node < nodes_size tree.now.nodes }
{
    put_place(out, " child0=", tree.child(node, 0));
    put_place(out, " child1=", tree.child(node, 1));
    put_place(out, " next=", tree.next(node));
}

/// Writes a word and a number, or `-`.
pub fn put_place(out: &mut CaseOutput, word: &str, number: Option<u32>) {
    out.put(word);
    out.put_number(number);
}

// Writes what a node is, with all that its kind has.
fn put_kind(out: &mut CaseOutput, kind: &NodeKind) {
    match kind {
        NodeKind::Text(text) => {
            out.put("text ");
            put_quoted(out, text);
        }
        NodeKind::Action(pipe) => put_control(out, "action ", &None, pipe),
        NodeKind::Declare(name, pipe) => put_setting(out, "declare ", name.get(), pipe),
        NodeKind::Assign(name, pipe) => put_setting(out, "assign ", name.get(), pipe),
        NodeKind::If(name, pipe) => put_control(out, "if ", name.get(), pipe),
        NodeKind::With(name, pipe) => put_control(out, "with ", name.get(), pipe),
        NodeKind::Range(index, element, pipe) => {
            out.put("range ");
            put_declared(out, index.get(), ", ");
            put_control(out, "", element.get(), pipe);
        }
        NodeKind::Break => out.put("break"),
        NodeKind::Continue => out.put("continue"),
        NodeKind::Template(name, pipe) => put_template(out, name.get(), pipe),
    }
}

// Writes a word, a variable, a blank and a pipe.
fn put_setting(out: &mut CaseOutput, word: &str, name: &Text, pipe: &Pipe) {
    out.put(word);
    put_variable(out, name);
    out.put(" ");
    put_pipe(out, pipe);
}

// Writes the word of a control, its variable with `:=` where it has one, and its pipe.
fn put_control(out: &mut CaseOutput, word: &str, name: &Option<Text>, pipe: &Pipe) {
    out.put(word);
    put_declared(out, name, " := ");
    put_pipe(out, pipe);
}

// Writes a variable, where there is one, and the mark after it.
fn put_declared(out: &mut CaseOutput, name: &Option<Text>, mark: &str) {
    if let Some(name) = name {
        put_variable(out, name);
        out.put(mark);
    }
}

// Writes the call of a template, with its pipe where it has one.
fn put_template(out: &mut CaseOutput, name: &Text, pipe: &Option<Pipe>) {
    out.put("template ");
    put_quoted(out, name);
    if let Some(pipe) = pipe {
        out.put(" ");
        put_pipe(out, pipe);
    }
}
