ghost use Rattle.std.specs.Prelude.{◌≡◌, IfOk, IfErr};
ghost use Rattle.page_check.specs.CheckedSets.{IsChecked, OnlyForMemory};
ghost use Rattle.page_check.specs.Definitions.{IsForestOf};
ghost use Rattle.page_check.specs.Reading.{ChartRootsAnswers};
ghost use Rattle.page_check.specs.Refusing.{IsRefused, FilesRefuse};
ghost use Rattle.page_check.specs.WithoutErrors.{EndsAlone, NeedsCause};

use crate::checked::Checked;
use crate::names::root_names;
use crate::reading::read_files;
use crate::refused::MakeRefused;
use page_datum::{Files, NamedFile};
use page_io::Memory;
use place_infer::{Chart, SetRefused, infer};
use std::alloc::Global;
use tpl_parse::gather;
use tpl_tree::Forest;

// The most names that the definitions of a set may have.
const MAX_NAMES: usize = 1024;

/// Checks the template files of a directory, which are taken in the order of their list: the definitions of all of them, and the chart of
/// their roots. Each refusal comes exactly where `MakeRefused` says, and where none holds only `Memory` may come in the place of an answer.
pub fn check_files(alloc: Global, files: Files) -> Result<Checked, MakeRefused>
    ensures made { IfOk result (λ checked. checked.files ≡ files) }
    ensures checked { IfOk result IsChecked }
    // What is accepted has no cause to be refused.
    ensures accepted { IfOk result (λ _. FilesRefuse files.list → ⊥) }
    // A refusal has its cause.
    ensures refused { IfErr result (IsRefused files.list) }
    // What could be accepted is refused for want of memory alone.
    ensures sets { IfErr result (OnlyForMemory files) }
    // So is what has no error on any path of its roots, and not too many pairs.
    ensures complete { IfErr result (NeedsCause files.list) }
    // An end of a root is refused exactly where no other error stands.
    ensures ends { IfErr result (EndsAlone files.list) }
{
    match checked_set(alloc, files) {
        Ok(checked) => Ok(checked),
        Err(why) => Err(why),
    }
}

// As `check_files`: the first cause of the order of `MakeRefused` is reported.
fn checked_set(alloc: Global, files: Files) -> Result<Checked, MakeRefused>
    ensures made { IfOk result (λ checked. checked.files ≡ files) }
    ensures checked { IfOk result IsChecked }
    ensures refused { IfErr result (IsRefused files.list) }
{
    let read = match read_files(alloc, files.list.as_slice()) {
        Ok(read) => read,
        Err(why) => return Err(why),
    };
    let forest = match gather(alloc, read) {
        Ok(forest) => forest,
        Err(Memory) => return Err(MakeRefused::Memory),
    };
    match chart_roots(alloc, files.list.as_slice(), &forest) {
        Ok(chart) => Ok(Checked {
            files,
            forest,
            chart,
        }),
        Err(why) => Err(why),
    }
}

// The chart of the roots of files with these templates.
fn chart_roots(alloc: Global, files: &[NamedFile], forest: &Forest) -> Result<Chart, MakeRefused>
    requires { IsForestOf files.now forest.now }
    ensures { ChartRootsAnswers files.now forest.now result }
{
    if forest.count() > MAX_NAMES {
        return Err(MakeRefused::TooManyTemplates);
    }
    let roots = match root_names(alloc, files) {
        Ok(roots) => roots,
        Err(Memory) => return Err(MakeRefused::Memory),
    };
    if roots.as_slice().is_empty() {
        return Err(MakeRefused::NoTemplates);
    }
    match infer(alloc, forest, &roots) {
        Ok(chart) => Ok(chart),
        Err(SetRefused::Memory) => Err(MakeRefused::Memory),
        Err(why) => Err(MakeRefused::Set(why)),
    }
}
