ghost use Rattle.std.specs.Prelude.{◌≡◌, OnOk};
ghost use Rattle.tpl_build.specs.Building as spec;

use crate::action::Opening;
use crate::builder::Builder;
use crate::definition::{Def, FoundDefinition};
use crate::frame::{OpenDefinition, OpenForm};
use page_io::{List, Memory, Text};
use std::alloc::Global;
use std::mem;
use tpl_pipe::Variables;
use tpl_tree::{Tree, TreeBuilder};

/// Opens a definition, whose word is on a line, and whose body begins at an offset. Until it is closed it is among the
/// others without a tree.
#[inline(never)]
pub fn open_definition(
    alloc: Global,
    builder: &mut Builder,
    name: Text,
    line: u32,
    begins: u32,
) -> Result<(), Memory>
    ensures { OnOk result (builder.new ≡ spec.with_definition name line begins builder.old) }
{
    let slot = builder.found.as_slice().len();
    let tree = TreeBuilder::new(alloc).into_tree(1);
    let def = Def {
        name,
        blank: true,
        tree,
    };
    builder.found.push(FoundDefinition { def, line })?;
    let before = mem::replace(&mut builder.body, TreeBuilder::new(alloc));
    let variables = mem::replace(&mut builder.variables, Variables::new(alloc));
    builder.frames.push(OpenForm::Definition(OpenDefinition {
        slot,
        begins,
        before,
        variables,
        in_range: builder.in_range,
        blank: builder.blank,
    }))?;
    builder.in_range = false;
    builder.blank = true;
    Ok(())
}

/// Closes a definition that was taken off the others that are open.
pub fn close_definition(
    alloc: Global,
    builder: &mut Builder,
    innermost: OpenDefinition,
    opening: Opening,
)
    ensures { builder.new
        ≡ spec.closed_definition builder.old.frames innermost opening builder.old }
{
    let OpenDefinition {
        slot,
        begins,
        before,
        variables,
        in_range,
        blank,
    } = innermost;
    let body = mem::replace(&mut builder.body, before);
    let found = mem::replace(&mut builder.found, List::new(alloc));
    builder.found = filled(
        found,
        slot,
        builder.blank,
        body.into_tree(end_line(begins, opening)),
    );
    builder.variables = variables;
    builder.in_range = in_range;
    builder.blank = blank;
}

// The line of the last byte of a body that begins at an offset, and ends where an action begins; 1 where it is empty.
fn end_line(begins: u32, opening: Opening) -> u32
    ensures { result ≡ spec.end_line begins opening }
{
    if begins == opening.start {
        1
    } else {
        opening.before
    }
}

// The definitions, of which that with this number gets its tree.
fn filled(
    found: List<FoundDefinition>,
    slot: usize,
    blank: bool,
    tree: Tree,
) -> List<FoundDefinition>
    ensures { result ≡ spec.frame_filled slot blank tree found }
{
    let mut found = found.into_vec();
    if slot >= found.len() {
        return List::from(found);
    }
    fill(&mut found[slot], blank, tree);
    List::from(found)
}

fn fill(found: &mut FoundDefinition, blank: bool, tree: Tree)
    ensures { found.new ≡ spec.filled_one blank tree found.old }
{
    found.def.blank = blank;
    found.def.tree = tree;
}
