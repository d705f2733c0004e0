use crate::files::file_of;
use crate::nodes::put_nodes;
use crate::trees::{body_of, template_of};
use case_table::{CaseOutput, CaseRow, CaseStop};
use page_io::Text;
use std::alloc::Global;
use tpl_print::print_tree;
use tpl_tree::{NodeKind, Tree};

/// Writes what a call of `tpl_print` gives: `print_tree` of the tree of a template's body, or the `text` that what is
/// printed of it is read as.
pub fn put_printed(out: &mut CaseOutput, call: &str, row: &CaseRow) -> Result<(), CaseStop> {
    let file = template_of(out.alloc(), row.text(0)?)?;
    let tree = body_of(&file)?;
    let printed = print_tree(out.alloc(), tree)?;
    match call {
        "print_tree" => {
            out.put(printed.as_str());
            if !is_read_back(out.alloc(), printed.as_str(), tree)? {
                out.put(" (this is not read as the same tree)");
            }
            Ok(())
        }
        "text" => put_text(out, printed.as_str()),
        _ => Err(CaseStop::Form),
    }
}

// Whether a text is read as a tree, lines apart.
fn is_read_back(alloc: Global, printed: &str, tree: &Tree) -> Result<bool, CaseStop> {
    match file_of(alloc, "a", printed)? {
        Some(file) => {
            let read = shown(alloc, body_of(&file)?)?;
            Ok(read.as_str() == shown(alloc, tree)?.as_str())
        }
        None => Ok(false),
    }
}

// All of a tree but its lines.
fn shown(alloc: Global, tree: &Tree) -> Result<Text, CaseStop> {
    let mut out = CaseOutput::new(alloc);
    put_nodes(&mut out, tree, false);
    out.finish()
}

// Writes the text that is read of what is printed, where this is one text.
fn put_text(out: &mut CaseOutput, printed: &str) -> Result<(), CaseStop> {
    let file = template_of(out.alloc(), printed)?;
    let read = body_of(&file)?;
    if read.count() != 1 {
        out.put("(this is not one text)");
        return Ok(());
    }
    match read.kind(0) {
        NodeKind::Text(text) => out.put(text.as_str()),
        _ => out.put("(this is no text)"),
    }
    Ok(())
}
