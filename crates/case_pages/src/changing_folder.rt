ghost use Rattle.std.specs.Prelude.{◌≡◌};

use page_io::{Bytes, Folder, IoStop, Names};
use std::alloc::Global;

/// A folder whose files are others once they were listed some times, as when somebody changes them. It does not tell what it has.
#[derive(Drop)]
pub struct ChangingFolder<F, G> {
    first: F,
    later: G,
    listings: u64,
    is_changed: bool,
}

impl<F: Folder, G: Folder> ChangingFolder<F, G> {
    /// The files of `first` for so many listings, and those of `later` from the next one on.
    pub fn new(first: F, listings: u64, later: G) -> ChangingFolder<F, G> {
        ChangingFolder {
            first,
            later,
            listings,
            is_changed: false,
        }
    }
}

impl<F: Folder, G: Folder> Folder for ChangingFolder<F, G> {
    ghost use Rattle.std.specs.Prelude.{◌+◌, None};

    ghost held = { λ _. None };

    ghost faults = { λ f. F.faults f.first + G.faults f.later };

    fn list(&mut self, alloc: Global, dir: &str) -> Result<Names, IoStop> {
        if self.listings == 0 {
            self.is_changed = true;
            return self.later.list(alloc, dir);
        }
        self.listings -= 1;
        self.first.list(alloc, dir)
    }

    fn read(&mut self, alloc: Global, dir: &str, name: &str, max: u64) -> Result<Bytes, IoStop> {
        if self.is_changed {
            self.later.read(alloc, dir, name, max)
        } else {
            self.first.read(alloc, dir, name, max)
        }
    }
}
