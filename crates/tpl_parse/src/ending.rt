ghost use Rattle.std.specs.Prelude.{◌≡◌, [], IfOk};
ghost use Rattle.tpl_parse.specs.Endings.{file_finished};
ghost use Rattle.tpl_parse.specs.Actions.{ActionAnswers};
ghost use Rattle.tpl_parse.specs.Endings as spec;

use crate::refused::RefusalCause;
use page_io::{List, Memory, Stop, Text};
use std::alloc::Global;
use std::collections::BTreeSet;
use tpl_build::{Builder, Def, FoundDefinition};
use tpl_pipe::ParseRefused;
use tpl_symbol::TextEnd;

// The definitions of a file of this name, all of which was read.
pub fn finish(
    alloc: Global,
    builder: Builder,
    name: &str,
    end: TextEnd,
) -> Result<List<Def>, Stop<RefusalCause>>
    ensures { ActionAnswers result (file_finished name.now end builder) }
{
    if !builder.frames.is_empty() {
        return Err(Stop::Cause((ParseRefused::UnclosedBlock, end.line)));
    }
    match with_own(alloc, builder, name, end) {
        Ok(found) => checked(alloc, found),
        Err(Memory) => Err(Stop::Memory),
    }
}

// The definitions, and after them the file's own body.
fn with_own(
    alloc: Global,
    builder: Builder,
    name: &str,
    end: TextEnd,
) -> Result<List<FoundDefinition>, Memory>
    ensures { IfOk result (λ found. found ≡ spec.with_own name.now end builder) }
{
    let mut found = builder.found;
    let def = Def {
        name: Text::copy_of(alloc, name)?,
        blank: builder.blank,
        tree: builder.body.into_tree(end.before),
    };
    found.push(FoundDefinition { def, line: 1 })?;
    Ok(found)
}

// The definitions, unless one is the second of its name that is not blank.
fn checked(alloc: Global, found: List<FoundDefinition>) -> Result<List<Def>, Stop<RefusalCause>>
    ensures { ActionAnswers result (spec.checked (spec.second_line [] found) found) }
{
    match second_line(alloc, found.as_slice()) {
        Ok(Some(line)) => Err(Stop::Cause((ParseRefused::MultipleDefinition, line))),
        Ok(None) => match defs_of(alloc, found) {
            Ok(defs) => Ok(defs),
            Err(Memory) => Err(Stop::Memory),
        },
        Err(Memory) => Err(Stop::Memory),
    }
}

// The line of the first definition that is the second of its name that is not blank.
fn second_line(alloc: Global, found: &[FoundDefinition]) -> Result<Option<u32>, Memory>
    ensures { IfOk result (λ line. line ≡ spec.second_line [] found.now) }
{
    let mut names = BTreeSet::new(alloc);
    for one in found {
        if !one.def.blank {
            let is_new = names.insert(Text::copy_of(alloc, one.def.name.as_str())?)?;
            if !is_new {
                return Ok(Some(one.line));
            }
        }
    }
    Ok(None)
}

// The definitions without the lines of their words.
fn defs_of(alloc: Global, found: List<FoundDefinition>) -> Result<List<Def>, Memory>
    ensures { IfOk result (λ defs. defs ≡ spec.defs_of found) }
{
    let mut defs = List::new(alloc);
    for one in found.into_vec() {
        defs.push(one.def)?;
    }
    Ok(defs)
}
