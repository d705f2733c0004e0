ghost use Rattle.std.specs.Prelude.{◌≡◌, ◌≤◌, ℕ, List, IsTrue, IfOk, IfErr, OnOk};
ghost use Rattle.page_io.specs.Causes.{Rose};
ghost use Rattle.page_datum.specs.Data.{Data};
ghost use Rattle.page_datum.specs.Execution.{Execution, PageAnswers};
ghost use Rattle.page_datum.specs.View.{view};
ghost use Rattle.page_datum.specs.declared.files.Files.{Files};

use crate::datum::Datum;
use crate::fault::ExecFault;
use crate::files::Files;
use crate::shown::Shown;
use page_io::Sink;
use std::alloc::Global;

/// Why a page stopped.
#[derive(Debug, PartialEq, Eq, Drop)]
pub enum PageStop {
    /// No root has the name.
    NoTemplate,
    /// The execution met a fault.
    Fault(ExecFault),
    /// The sink failed, and has counted it.
    SinkStop,
    /// Out of memory.
    Memory,
}

/// What was written: the page's length in bytes, and the steps of its execution.
#[derive(Clone, Copy, Debug, PartialEq, Eq)]
pub struct PageEnd {
    pub bytes: u64,
    pub steps: u64,
}

/// A set of pages, made of files.
pub trait Pages: Sized {
    type Refused: Shown + Drop;

    // The files that a set was made of.
    ghost made_of: { Self → Files };

    // Which files are refused for another cause than memory.
    ghost refuses: { Files → Type 0 };

    // What executing a root with a datum gives in a set.
    ghost execution: { Self → List ℕ → Data → Execution };

    // What it gives for a set of files.
    ghost is_execution: { Files → List ℕ → Data → Execution → Type 0 };

    // What holds of files, root, datum and page where a page is written to its end.
    ghost is_sound: { Files → List ℕ → Data → List ℕ → Type 0 };

    /// The set of these files. A refusal, but for being out of memory, comes exactly where the files
    /// are refused.
    fn make(alloc: Global, files: Files) -> Result<Self, Self::Refused>
        ensures made { IfOk result (λ set. made_of set ≡ files) }
        ensures accepted { IfOk result (λ _. refuses files → ⊥) }
        ensures refused { IfErr result (λ e.
            ¬ IsTrue (Self.Refused.is_memory e) → refuses files) };

    /// Writes the page of a root with a datum. Whatever the answer, the sink has got a prefix of the
    /// execution's bytes, and all of them at Ok. `SinkStop` comes only where the sink's count of
    /// faults rose in this call.
    fn page<K: Sink>(
        &self,
        alloc: Global,
        root: &str,
        datum: &Datum,
        out: &mut K,
    ) -> Result<PageEnd, PageStop>
        ensures answers { PageAnswers (execution self.now root.now (view datum.now))
            (K.taken out.old) (K.taken out.new) result }
        ensures meant { is_execution (made_of self.now) root.now (view datum.now)
            (execution self.now root.now (view datum.now)) }
        ensures later { K.faults out.old ≤ K.faults out.new }
        ensures sink { result ≡ Err PageStop.SinkStop
            → Rose (K.faults out.old) (K.faults out.new) }
        ensures sound { OnOk result (is_sound (made_of self.now) root.now (view datum.now)
            (execution self.now root.now (view datum.now)).bytes) };
}
