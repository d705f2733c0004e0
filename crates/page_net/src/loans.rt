ghost use Rattle.std.specs.Prelude.{◌≡◌, ◌+◌, ◌-◌, ◌++◌, ◌∷◌, ◌<◌, [], IfOk, OnOk, OnErr};
ghost use Rattle.page_net.specs.Loans.{Loaned, Lends};

use page_io::{List, Memory};
use std::alloc::Global;
use std::marker::Model;

/// Values that are given one after another and come back. The room for all to come back is reserved before they go
/// out.
#[derive(Debug, Drop)]
pub struct Loans<T> {
    // The values to come, the last first.
    coming: Vec<T>,
    // How many are out.
    out: usize,
    back: Vec<T>,
}

impl<T> Model for Loans<T> {
    ghost use Rattle.std.specs.Prelude.{◌+◌, ◌≤◌, reverse, vec_len, vec_capacity};
    ghost use Rattle.page_net.specs.Loans.{Loaned};

    ghost Value = { Loaned T };

    ghost view = { λ l. record {
      coming = reverse l.coming.items;
      out = l.out;
      back = l.back.items;
    } };

    ghost invariant = { λ l. vec_len l.coming + l.out + vec_len l.back ≤ vec_capacity l.back };
}

impl<T: Drop> Loans<T> {
    /// These values are to come. Fails only if allocation fails.
    pub fn new(alloc: Global, values: List<T>) -> Result<Loans<T>, Memory>
        ensures { IfOk result (λ loans. loans ≡ record { coming = values; out = 0; back = [] }) }
    {
        let mut coming = values.into_vec();
        let back = Vec::with_capacity(alloc, coming.len())?;
        coming.as_mut_slice().reverse();
        Ok(Loans {
            coming,
            out: 0,
            back,
        })
    }

    /// The next value, which is out from now on, or `None` where none is to come.
    pub fn lend(&mut self) -> Option<T>
        ensures { Lends self.old result self.new }
    {
        let value = self.coming.pop()?;
        self.out += 1;
        Some(value)
    }

    /// Counts a value as out that was not among those to come. Fails only if allocation fails, and changes nothing
    /// then.
    pub fn lend_another(&mut self) -> Result<(), Memory>
        ensures ok { OnOk result (self.new ≡ record self.old { out = self.old.out + 1 }) }
        ensures err { OnErr result (self.new ≡ self.old) }
    {
        self.back.reserve(self.coming.len() + self.out + 1)?;
        self.out += 1;
        Ok(())
    }

    /// Takes a value back. It takes no memory.
    pub fn take_back(&mut self, value: T)
        requires { 0 < self.old.out }
        ensures { self.new ≡ record self.old {
          out = self.old.out - 1;
          back = self.old.back ++ value ∷ [];
        } }
    {
        let Ok(()) = self.back.push(value) else {
            unreachable!()
        };
        self.out -= 1;
    }

    /// The values that are back, in order.
    pub fn back(&self) -> &[T]
        ensures { result.now ≡ self.now.back }
    {
        self.back.as_slice()
    }
}
