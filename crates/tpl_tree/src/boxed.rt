ghost use Rattle.std.specs.Prelude.{◌≡◌, IfOk};

use page_io::Memory;
use std::alloc::Global;
use std::marker::Model;

/// A value on the heap, behind one pointer. It keeps an enum small whose other variants do not have the value.
/// Contracts see the value.
#[derive(Debug, Drop)]
pub struct Boxed<T> {
    value: Box<T>,
}

impl<T> Model for Boxed<T> {
    ghost Value = { T };

    ghost view = { λ b. b.value.value };
}

impl<T> Boxed<T> {
    /// A value, moved to memory of its own. Fails only if allocation fails.
    pub fn new(alloc: Global, value: T) -> Result<Boxed<T>, Memory>
    where
        T: Drop,
        ensures { IfOk result (λ boxed. boxed ≡ value) }
    {
        Ok(Boxed {
            value: Box::new(alloc, value)?,
        })
    }

    /// The value.
    pub fn get(&self) -> &T
        ensures { result.now ≡ self.now }
    {
        &self.value
    }
}
