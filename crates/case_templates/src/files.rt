ghost use Rattle.std.specs.Prelude.{IfOk, IfSome};
ghost use Rattle.case_templates.specs.ParsedFiles.{IsOfParsedFiles, IsParsedFile};

use crate::forests::{files_of_definitions, put_forest};
use crate::nodes::{put_nodes, put_place};
use case_table::{CaseOutput, CaseRow, CaseStop, pair_of, text_of};
use page_datum::Datum;
use page_io::List;
use std::alloc::Global;
use tpl_parse::{File, FileRefused, gather, parse_file};
use tpl_token::fits;
use tpl_tree::{Forest, NodeKind, Tree};

/// Writes what a call of `tpl_parse` gives: `parse_file` of a name and a text, the line of a byte in what it gives, or what
/// gathering gives, of files of text or of files by their definitions.
pub fn put_files(out: &mut CaseOutput, call: &str, row: &CaseRow) -> Result<(), CaseStop> {
    match call {
        "parse_file" | "line_at" => put_file(out, call, row),
        "gather" => {
            match forest_of(out.alloc(), row.list(0)?)? {
                Some(forest) => put_forest(out, &forest),
                None => out.put("a file is refused"),
            }
            Ok(())
        }
        "gather_definitions" => {
            let files = files_of_definitions(out.alloc(), row.list(0)?)?;
            put_forest(out, &gather(out.alloc(), files)?);
            Ok(())
        }
        _ => Err(CaseStop::Form),
    }
}

// Writes what a file has with the name and the text of a row, or why it is refused, with the line.
fn put_file(out: &mut CaseOutput, call: &str, row: &CaseRow) -> Result<(), CaseStop> {
    let (name, text) = (row.text(0)?, row.text(1)?);
    if !fits(text) {
        out.put("too long");
        return Ok(());
    }
    match parse_file(out.alloc(), name, text) {
        Ok(file) if call == "line_at" => return put_byte(out, &file, row),
        Ok(file) => put_definitions(out, &file),
        Err(why) => put_refusal(out, why),
    }
    Ok(())
}

// Writes definitions, each with its nodes.
fn put_definitions(out: &mut CaseOutput, file: &File) {
    for def in file.defs.as_slice() {
        out.put_between("\n");
        out.put("def ");
        out.put(def.name.as_str());
        out.put(if def.blank {
            " blank=true"
        } else {
            " blank=false"
        });
        put_place(out, " end=", Some(def.tree.end_line()));
        put_nodes(out, &def.tree, true);
    }
}

fn put_refusal(out: &mut CaseOutput, why: FileRefused) {
    match why {
        FileRefused::Token(why, line) => {
            let cause = why.name();
            out.put_made(format!(in out.alloc(); "Token {cause} {line}"));
        }
        FileRefused::Parse(why, line) => {
            out.put_made(format!(in out.alloc(); "Parse {why:?} {line}"));
        }
        FileRefused::Memory => out.lose(),
    }
}

// Writes the line of a byte of a text: the row has a definition, a node of it and a byte by their numbers.
fn put_byte(out: &mut CaseOutput, file: &File, row: &CaseRow) -> Result<(), CaseStop> {
    let (def, node, byte) = (row.count(2)?, row.place(3)?, row.place(4)?);
    let line = match file.defs.as_slice().get(def as usize) {
        Some(def) => line_in(&def.tree, node, byte),
        None => None,
    };
    match line {
        Some(line) => out.put_number(Some(line)),
        None => out.put("no byte of a text"),
    }
    Ok(())
}

// The line of a byte of a node that is a text.
fn line_in(tree: &Tree, node: u32, byte: u32) -> Option<u32> {
    if node >= tree.count() {
        return None;
    }
    match tree.kind(node) {
        NodeKind::Text(text) if byte as usize <= text.as_str().len() => {
            Some(tree.line_at(node, byte))
        }
        _ => None,
    }
}

/// The forest of files, each a list of a name and a text, or nothing where one of them is refused.
pub fn forest_of(alloc: Global, files: &[Datum]) -> Result<Option<Forest>, CaseStop>
    ensures { IfOk result (λ made. IfSome made IsOfParsedFiles) }
{
    let mut list = List::new(alloc);
    for file in files {
        let (name, text) = pair_of(file)?;
        match file_of(alloc, text_of(name)?, text_of(text)?)? {
            Some(file) => list.push(file)?,
            None => return Ok(None),
        }
    }
    Ok(Some(gather(alloc, list)?))
}

/// The definitions of a file with this name and text, or nothing where it is refused.
pub fn file_of(alloc: Global, name: &str, text: &str) -> Result<Option<File>, CaseStop>
    ensures { IfOk result (λ read. IfSome read IsParsedFile) }
{
    if !fits(text) {
        return Ok(None);
    }
    match parse_file(alloc, name, text) {
        Ok(file) => Ok(Some(file)),
        Err(FileRefused::Memory) => Err(CaseStop::Memory),
        Err(_) => Ok(None),
    }
}
