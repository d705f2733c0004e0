ghost use Rattle.std.specs.Prelude.{◌≡◌, ◌∷◌, [], IsTrue, ◌↔◌, OnOk, OnErr, MatchOption, reverse};
ghost use Rattle.page_io.specs.Stacks.{HasTop, Popped};

use crate::stop::Memory;
use std::alloc::Global;
use std::marker::Model;

/// A stack of values. Contracts see them from the last one pushed to the first.
#[derive(Debug, Drop)]
pub struct Stack<T> {
    items: Vec<T>,
}

impl<T> Model for Stack<T> {
    ghost use Rattle.std.specs.Prelude.{List, reverse};

    ghost Value = { List T };

    ghost view = { λ s. reverse s.items.items };
}

impl<T> Stack<T> {
    /// The empty stack, which does not allocate.
    pub fn new(alloc: Global) -> Stack<T>
        ensures { result ≡ [] }
    {
        Stack {
            items: Vec::new(alloc),
        }
    }

    /// Whether nothing is on the stack.
    pub fn is_empty(&self) -> bool
        ensures { IsTrue result ↔ (self.now ≡ []) }
    {
        self.items.is_empty()
    }

    /// Puts a value on top. Fails only if allocation fails, and then the stack is as it was.
    #[inline(always)]
    pub fn push(&mut self, value: T) -> Result<(), Memory>
    where
        T: Drop,
        ensures more { OnOk result (self.new ≡ value ∷ self.old) }
        ensures kept { OnErr result (self.new ≡ self.old) }
    {
        self.items.push(value)?;
        Ok(())
    }

    /// Takes the value on top, where there is one.
    pub fn pop(&mut self) -> Option<T>
        ensures { Popped self.old result self.new }
    {
        self.items.pop()
    }

    /// The value on top, where there is one.
    pub fn top(&self) -> Option<&T>
        ensures { MatchOption result (self.now ≡ []) (λ top. HasTop top.now self.now) }
    {
        self.items.last()
    }

    /// The values in the order in which they were pushed, taking no memory.
    pub fn into_vec(self) -> Vec<T>
        ensures { result.items ≡ reverse self }
    {
        self.items
    }
}
