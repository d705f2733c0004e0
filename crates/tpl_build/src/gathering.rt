ghost use Rattle.std.specs.Prelude.{◌∷◌, [], IfOk, OnOk};
ghost use Rattle.tpl_build.specs.Gathering.{AddsDefs, all_defs, HasStanding};

use crate::definition::{Def, File};
use page_io::{List, Memory, Text};
use std::alloc::Global;
use std::collections::BTreeMap;
use tpl_tree::{Forest, Tree};

/// The forest of these files, in their order. Of several definitions of a name, the last that is not blank counts, and the first where
/// all are blank. Fails if allocation fails, or on more than `u32::MAX` names.
pub fn gather(alloc: Global, files: List<File>) -> Result<Forest, Memory>
    ensures { IfOk result (HasStanding (all_defs files)) }
{
    let mut trees = BTreeMap::new(alloc);
    for file in files.into_vec() {
        add_file(&mut trees, file)?;
    }
    Forest::from_map(alloc, trees)
}

// Adds the definitions of a file, whichever came before them.
fn add_file(trees: &mut BTreeMap<Text, Tree>, file: File) -> Result<(), Memory>
    ensures { OnOk result (AddsDefs file.defs trees.old.entries trees.new.entries) }
{
    for def in file.defs.into_vec() {
        add(trees, def)?;
    }
    Ok(())
}

// Adds a definition, whichever came before it.
fn add(trees: &mut BTreeMap<Text, Tree>, def: Def) -> Result<(), Memory>
    ensures { OnOk result (AddsDefs (def ∷ []) trees.old.entries trees.new.entries) }
{
    let Def { name, blank, tree } = def;
    if blank && trees.contains_key(&name) {
        return Ok(());
    }
    trees.insert(name, tree)?;
    Ok(())
}
