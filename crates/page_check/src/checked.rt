ghost use Rattle.std.specs.Prelude.{◌≡◌, length, IfOk, MatchOption, false};
ghost use Rattle.page_check.specs.CheckedSets.{ExplainRootAnswers, IsChecked, StartsAt, start_of_template};
ghost use Rattle.page_check.specs.Roots.{roots_of};
ghost use Rattle.page_check.specs.Roots as spec;

use crate::names::{count_roots, is_partial};
use crate::root_start::RootStart;
use page_datum::Files;
use page_io::{Memory, Text};
use place_infer::Chart;
use std::alloc::Global;
use std::marker::Model;
use tpl_tree::Forest;

/// Files that are checked: the templates that stand, and the chart of the roots. Contracts see it as `CheckedData` of
/// `specs/CheckedSets.antt`.
#[derive(Debug, Drop)]
pub struct Checked {
    pub(crate) files: Files,
    pub(crate) forest: Forest,
    pub(crate) chart: Chart,
}

impl Model for Checked {
    ghost use Rattle.std.specs.Coded.{codes};
    ghost use Rattle.page_check.specs.CheckedSets.{CheckedData, IsChecked};
    ghost use Rattle.tpl_tree.specs.NodesCode.{tree_code};

    ghost Value = { CheckedData };

    ghost coded = { Prim.hlevel (codes, tree_code) };

    ghost view = { λ c. record { files = c.files; forest = c.forest; chart = c.chart } };

    ghost invariant = { λ c. IsChecked (record { files = c.files; forest = c.forest; chart = c.chart }) };
}

impl Checked {
    /// Whether a name is that of a root: of a file whose name does not begin with `_`.
    pub fn is_root(&self, name: &str) -> bool
        ensures { result ≡ spec.is_root self.now.files.list name.now }
    {
        for file in self.files.list.as_slice() {
            if file.name.as_str() == name && !is_partial(file.name.as_str()) {
                return true;
            }
        }
        false
    }

    /// Where a root starts: its template, and the pair of the chart of that template, entered in text. None exactly where no root has
    /// the name.
    pub fn start(&self, root: &str) -> Option<RootStart>
        ensures { MatchOption result (spec.is_root self.now.files.list root.now ≡ false)
            (StartsAt self.now root.now) }
    {
        let (forest, chart) = (&self.forest, &self.chart);
        if !self.is_root(root) {
            return None;
        }
        match forest.find(root) {
            Some(template) => start_of(chart, template),
            None => None,
        }
    }

    /// The explanation of a root, as `explain` of `place_explain` writes it: the pairs that the root reaches, with their places and what
    /// is done in their holes. None exactly where no root has the name. Fails only if allocation fails.
    pub fn explain(&self, alloc: Global, root: &str) -> Result<Option<Text>, Memory>
        ensures { IfOk result (ExplainRootAnswers self.now root.now) }
    {
        match self.start(root) {
            Some(start) => {
                match place_explain::explain(alloc, &self.forest, &self.chart, start.pair) {
                    Ok(text) => Ok(Some(text)),
                    Err(memory) => Err(memory),
                }
            }
            None => Ok(None),
        }
    }

    /// How many roots there are, how many templates, and how many pairs of a template and a place in which it is entered.
    pub fn counts(&self) -> (usize, usize, usize)
        ensures roots { result.0 ≡ length (roots_of self.now.files.list) }
        ensures templates { result.1 ≡ length self.now.forest }
        ensures pairs { result.2 ≡ length self.now.chart.summaries }
    {
        (
            count_roots(self.files.list.as_slice()),
            self.forest.count(),
            self.chart.pairs(),
        )
    }

    /// The files.
    pub fn files(&self) -> &Files
        ensures { result.now ≡ self.now.files }
    {
        &self.files
    }

    /// The templates that stand.
    pub fn forest(&self) -> &Forest
        ensures forest { result.now ≡ self.now.forest }
        ensures checked { IsChecked self.now }
    {
        &self.forest
    }

    /// The chart of the roots.
    pub fn chart(&self) -> &Chart
        ensures { result.now ≡ self.now.chart }
    {
        &self.chart
    }
}

// Where a template starts, if it has a pair entered in text.
fn start_of(chart: &Chart, template: u32) -> Option<RootStart>
    ensures { result ≡ start_of_template chart.now template }
{
    let pair = chart.start(template)?;
    Some(RootStart { template, pair })
}
