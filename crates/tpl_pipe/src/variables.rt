ghost use Rattle.std.specs.Prelude.{◌≡◌, ◌++◌, ◌∷◌, [], OnOk, length, take};
ghost use Rattle.std.specs.Option.{is_some};
ghost use Rattle.tpl_pipe.specs.Variables.{variable_number};
ghost use Rattle.tpl_pipe.specs.Reading as spec;

use page_io::{Memory, Text};
use std::alloc::Global;
use std::collections::BTreeMap;
use std::marker::Model;

/// The variables that are declared, in the order of their declarations. Contracts see their names. Whether a name is
/// among them is found without going through them.
#[derive(Debug, Drop)]
pub struct Variables {
    names: Vec<Text>,
    // Of each declared name the number of its first declaration; of another name no number, or any.
    numbers: BTreeMap<Text, usize>,
}

impl Model for Variables {
    ghost use Rattle.std.specs.Prelude.{List, ℕ};
    ghost use Rattle.tpl_pipe.specs.Variables.{AreNumbered};

    ghost Value = { List (List ℕ) };

    ghost view = { λ v. v.names.items };

    ghost invariant = { λ v. AreNumbered v.names.items v.numbers };
}

impl Variables {
    /// No variables, which does not allocate.
    pub fn new(alloc: Global) -> Variables
        ensures { result ≡ [] }
    {
        Variables {
            names: Vec::new(alloc),
            numbers: BTreeMap::new(alloc),
        }
    }

    /// How many they are.
    pub fn len(&self) -> usize
        ensures { result ≡ length self.now }
    {
        self.names.len()
    }

    /// Whether a variable of this name is declared; `$` always is.
    pub fn has(&self, name: &Text) -> bool
        ensures { result ≡ spec.variable_declared self.now name.now }
    {
        name.is_empty() || self.has_declared(name)
    }

    fn has_declared(&self, name: &Text) -> bool
        ensures { result ≡ is_some (variable_number name.now self.now) }
    {
        match self.numbers.get(name) {
            Some(number) => match self.names.as_slice().get(*number) {
                Some(found) => found == name,
                None => false,
            },
            None => false,
        }
    }

    /// Declares one more. Fails only if allocation fails.
    pub fn push(&mut self, name: Text) -> Result<(), Memory>
        ensures { OnOk result (self.new ≡ self.old ++ name ∷ []) }
    {
        let number = self.names.as_slice().len();
        if self.has_declared(&name) {
            self.names.push(name)?;
            return Ok(());
        }
        let copy = Text::copy_of(name.allocator(), name.as_str())?;
        self.numbers.insert(copy, number)?;
        self.names.push(name)?;
        Ok(())
    }

    /// Keeps the first ones, so many.
    pub fn truncate(&mut self, count: usize)
        ensures { self.new ≡ take count self.old }
    {
        self.names.truncate(count);
    }
}
