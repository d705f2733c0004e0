ghost use Rattle.std.specs.Prelude.{◌≡◌, ◌≤◌, length, Err, IfOk, IfErr, OnOk};
ghost use Rattle.page_check.specs.CheckedSets.{ExplainRootAnswers, IsChecked, OnlyForMemory};
ghost use Rattle.page_check.specs.Refusing.{IsRefused};
ghost use Rattle.page_check.specs.WithoutErrors.{EndsAlone, NeedsCause};
ghost use Rattle.page_check.specs.Roots.{roots_of};
ghost use Rattle.page_datum.specs.Execution.{PageAnswers, done};
ghost use Rattle.page_datum.specs.View.{view};
ghost use Rattle.page_io.specs.Causes.{Rose};
ghost use Rattle.page_set.specs.Executions.{IsExecution, IsSoundPageOfFiles, execution_of};
ghost use Rattle.page_set.specs.RootPages.{Unwritten};
ghost use Rattle.page_check.specs.Refusing as spec;
ghost use Rattle.page_check.specs.Roots as roots_spec;

use crate::root_page::root_page;
use page_check::{Checked, MakeRefused, check_files};
use page_datum::{Datum, Files, PageEnd, PageStop, Pages, Shared};
use page_io::{Failed, Memory, Sink, Text, write_all};
use page_writer::{Output, outputs_of};
use std::alloc::Global;
use std::marker::Model;

/// A set of pages: checked files, and what a page gets at each node of their templates. Contracts see it as the checked files are seen:
/// `CheckedData`, the files with their templates and the chart of their roots.
#[derive(Debug, Drop)]
pub struct PageSet {
    checked: Checked,
    outputs: Vec<Vec<Output>>,
}

impl Model for PageSet {
    ghost use Rattle.std.specs.Coded.{codes};
    ghost use Rattle.std.specs.Prelude.{map};
    ghost use Rattle.page_check.specs.CheckedSets.{CheckedData};
    ghost use Rattle.page_writer.specs.Outputs.{AreOutputs};
    ghost use Rattle.tpl_tree.specs.NodesCode.{tree_code};

    ghost Value = { CheckedData };

    ghost coded = { Prim.hlevel (codes, tree_code) };

    ghost view = { λ s. s.checked };

    ghost invariant = { λ s.
        AreOutputs s.checked.forest s.checked.chart (map (λ row. row.items) s.outputs.items) };
}

impl Shared for PageSet {}

impl PageSet {
    /// The set of checked files. Fails only if allocation fails.
    pub fn of(alloc: Global, checked: Checked) -> Result<PageSet, Memory>
        ensures { IfOk result (λ set. set ≡ checked) }
    {
        let outputs = outputs_of(alloc, checked.forest(), checked.chart())?;
        Ok(PageSet { checked, outputs })
    }

    /// The checked files.
    pub fn checked(&self) -> &Checked
        ensures { result.now ≡ self.now }
    {
        &self.checked
    }

    /// Whether a name is that of a root: of a file whose name does not begin with `_`.
    pub fn is_root(&self, name: &str) -> bool
        ensures { result ≡ roots_spec.is_root self.now.files.list name.now }
    {
        self.checked.is_root(name)
    }

    /// The explanation of a root: the pairs that it reaches, with their places and what is done in their holes. None exactly where no root
    /// has the name. Fails only if allocation fails.
    pub fn explain(&self, alloc: Global, root: &str) -> Result<Option<Text>, Memory>
        ensures { IfOk result (ExplainRootAnswers self.now root.now) }
    {
        self.checked.explain(alloc, root)
    }

    /// How many roots there are, how many templates, and how many pairs of a template and a place in which it is entered.
    pub fn counts(&self) -> (usize, usize, usize)
        ensures roots { result.0 ≡ length (roots_of self.now.files.list) }
        ensures templates { result.1 ≡ length self.now.forest }
        ensures pairs { result.2 ≡ length self.now.chart.summaries }
    {
        self.checked.counts()
    }
}

impl Pages for PageSet {
    type Refused = MakeRefused;

    ghost use Rattle.page_check.specs.Refusing.{FilesRefuse};

    ghost made_of = { λ s. s.files };

    ghost refuses = { λ files. FilesRefuse files.list };

    ghost execution = { λ s root datum. execution_of s.files.list s.forest root datum };

    ghost is_execution = { IsExecution };

    ghost is_sound = { IsSoundPageOfFiles };

    /// The set of these files, or why they are refused: as `check_files` answers.
    fn make(alloc: Global, files: Files) -> Result<PageSet, MakeRefused>
        ensures made { IfOk result (λ set. set.files ≡ files) }
        ensures checked { IfOk result IsChecked }
        ensures accepted { IfOk result (λ _. spec.FilesRefuse files.list → ⊥) }
        ensures refused { IfErr result (IsRefused files.list) }
        ensures sets { IfErr result (OnlyForMemory files) }
        ensures complete { IfErr result (NeedsCause files.list) }
        ensures ends { IfErr result (EndsAlone files.list) }
    {
        let checked = match check_files(alloc, files) {
            Ok(checked) => checked,
            Err(why) => return Err(why),
        };
        match PageSet::of(alloc, checked) {
            Ok(set) => Ok(set),
            Err(Memory) => Err(MakeRefused::Memory),
        }
    }

    /// Writes the page of a root with a datum. The page is gathered before it is written, so where the execution meets a fault nothing was
    /// written.
    fn page<K: Sink>(
        &self,
        alloc: Global,
        root: &str,
        datum: &Datum,
        out: &mut K,
    ) -> Result<PageEnd, PageStop>
        ensures answers { PageAnswers
            (execution_of self.now.files.list self.now.forest root.now (view datum.now))
            (K.taken out.old) (K.taken out.new) result }
        ensures meant { IsExecution self.now.files root.now (view datum.now)
            (execution_of self.now.files.list self.now.forest root.now (view datum.now)) }
        ensures later { K.faults out.old ≤ K.faults out.new }
        ensures sink { result ≡ Err PageStop.SinkStop
            → Rose (K.faults out.old) (K.faults out.new) }
        ensures sound { OnOk result (IsSoundPageOfFiles self.now.files root.now (view datum.now)
            (execution_of self.now.files.list self.now.forest root.now (view datum.now)).bytes) }
        // Where the sink stopped, the execution is done; else nothing was written unless all was.
        ensures gathered { IfErr result (λ stop. Unwritten stop
            ((execution_of self.now.files.list self.now.forest root.now (view datum.now)).ending
            ≡ done) (K.taken out.new ≡ K.taken out.old)) }
    {
        let made = match root_page(alloc, &self.checked, self.outputs.as_slice(), root, datum) {
            Ok(made) => made,
            Err(stop) => return Err(stop),
        };
        match write_all(out, made.page.as_bytes()) {
            Ok(()) => Ok(PageEnd {
                bytes: made.page.len() as u64,
                steps: made.steps,
            }),
            Err(Failed) => Err(PageStop::SinkStop),
        }
    }
}
