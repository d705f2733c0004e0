use crate::nodes::{put_nodes, put_place};
use crate::trees::is_copied;
use case_table::{CaseOutput, CaseStop, list_of, pair_of, text_of};
use page_datum::Datum;
use page_io::{List, Memory, Text};
use std::alloc::Global;
use tpl_parse::{Def, File};
use tpl_tree::{Boxed, Forest, NodeKind, Tree, TreeBuilder};

/// Writes the names of a forest, and after each its tree: the line on which it ends, and its nodes.
pub fn put_forest(out: &mut CaseOutput, forest: &Forest) {
    for n in 0..forest.count() {
        let (name, tree) = (forest.name(n as u32), forest.tree(n as u32));
        out.put_between("\n");
        out.put(name);
        put_place(out, " end=", Some(tree.end_line()));
        put_nodes(out, tree, true);
        if !is_copied(out, tree) {
            out.put("\nnot as its copy");
        }
        if forest.find(name) != Some(n as u32) {
            out.put("\nnot found by its name");
        }
    }
}

/// Files by their definitions, each of which is a list of a name and the mark of its tree.
pub fn files_of_definitions(alloc: Global, files: &[Datum]) -> Result<List<File>, CaseStop> {
    let mut list = List::new(alloc);
    for file in files {
        let mut defs = List::new(alloc);
        for definition in list_of(file)? {
            let (name, mark) = pair_of(definition)?;
            defs.push(definition_of(alloc, text_of(name)?, text_of(mark)?)?)?;
        }
        list.push(File { defs })?;
    }
    Ok(list)
}

// A definition by its name and the mark of its tree, which is blank where the mark is empty or begins with a space.
fn definition_of(alloc: Global, name: &str, mark: &str) -> Result<Def, Memory> {
    Ok(Def {
        name: Text::copy_of(alloc, name)?,
        blank: mark.is_empty() || mark.starts_with(' '),
        tree: marked_tree(alloc, mark)?,
    })
}

// A tree that differs from others by a name in it; that of the empty mark has no nodes.
fn marked_tree(alloc: Global, mark: &str) -> Result<Tree, Memory> {
    let mut body = TreeBuilder::new(alloc);
    if !mark.is_empty() {
        let (first, other) = (TreeBuilder::new(alloc), TreeBuilder::new(alloc));
        let kind = NodeKind::Template(Boxed::new(alloc, Text::copy_of(alloc, mark)?)?, None);
        body.push(kind, 1, first, other)?;
    }
    Ok(body.into_tree(1))
}
