ghost use Rattle.std.specs.List.{IsDistinct};
ghost use Rattle.std.specs.Prelude.{◌≡◌, ◌<◌, ◌≤◌, [], All, IfOk, OnOk, Some, length, nat_eq, slice_get};
ghost use Rattle.place_explain.specs.Numbers.{IsNumberAdded};

use page_io::Memory;
use std::alloc::Global;
use std::marker::Model;

/// Numbers below a limit, each once, in the order in which they were added.
#[derive(Debug, Drop)]
pub struct Numbers {
    list: Vec<u32>,
    // for each number below the limit, whether it is in the list
    marks: Vec<bool>,
}

impl Model for Numbers {
    ghost use Rattle.std.specs.Prelude.{length};
    ghost use Rattle.place_explain.specs.Numbers.{AreMarked, NumbersData};

    ghost Value = { NumbersData };

    ghost view = { λ n. record { list = n.list.items; limit = length n.marks.items } };

    ghost invariant = { λ n. AreMarked n.list.items n.marks.items };
}

impl Numbers {
    /// No numbers, below a limit. Fails only if allocation fails.
    pub fn new(alloc: Global, limit: usize) -> Result<Numbers, Memory>
        ensures list { IfOk result (λ numbers. numbers.list ≡ []) }
        ensures limit { IfOk result (λ numbers. numbers.limit ≡ limit) }
    {
        Ok(Numbers {
            list: Vec::new(alloc),
            marks: vec![in alloc; false; limit]?,
        })
    }

    /// How many numbers there are.
    pub fn count(&self) -> usize
        ensures count { result ≡ length self.now.list }
        ensures few { result ≤ self.now.limit }
    {
        self.list.len()
    }

    /// A number, by its place.
    pub fn number(&self, at: usize) -> u32
        requires { at < length self.now.list }
        ensures { slice_get self.now.list at ≡ Some result }
    {
        self.list[at]
    }

    /// Adds a number after the others, if it is below the limit and not among them. Fails only if allocation fails.
    pub fn add(&mut self, n: u32) -> Result<(), Memory>
        ensures { OnOk result (IsNumberAdded self.old self.new n) }
    {
        let at = n as usize;
        if at >= self.marks.len() {
            return Ok(());
        }
        if self.marks[at] {
            return Ok(());
        }
        self.list.push(n)?;
        self.marks[at] = true;
        Ok(())
    }

    /// The numbers as a list.
    pub fn into_list(self) -> Vec<u32>
        ensures list { result.items ≡ self.list }
        ensures once { IsDistinct nat_eq result.items }
        ensures below { All (λ n. n < self.limit) result.items }
    {
        self.list
    }
}
