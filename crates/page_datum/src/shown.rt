ghost use Rattle.std.specs.Prelude.{◌≡◌, ◌++◌, ℕ, List, Bool, OnOk};
ghost use Rattle.page_datum.specs.Lines.{HasPrefix};

use page_io::{Memory, Text};

/// A refusal that is printed.
pub trait Shown {
    // The lines that are printed, each ended by a line feed.
    ghost text: { Self → List ℕ };

    // Whether it is out of memory.
    ghost is_memory: { Self → Bool };

    /// Appends the refusal's lines. After the error a prefix of them is appended.
    fn lines(&self, out: &mut Text) -> Result<(), Memory>
        ensures ok { OnOk result (out.new ≡ out.old ++ text self.now) }
        ensures prefix { HasPrefix out.old out.new (text self.now) };

    /// Whether it is out of memory.
    fn memory(&self) -> bool
        ensures { result ≡ is_memory self.now };
}
