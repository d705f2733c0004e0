ghost use Rattle.std.specs.Prelude.{◌≡◌, ◌∷◌, ◌<◌, ◌-◌, [], drop, length, IfOk, IfSome, OnErr, OnOk};
ghost use Rattle.tpl_eval.specs.Evaluating.{variable_value};
ghost use Rattle.tpl_eval.specs.Newest.{newest_at};
ghost use Rattle.tpl_eval.specs.Values.{value_view};

use crate::value::Value;
use page_datum::DatumRef;
use page_io::Memory;
use std::alloc::Global;
use std::collections::BTreeMap;
use std::marker::Model;

/// A variable, by its name without `$`, so that `$` itself has the empty name.
#[derive(Debug, Drop)]
pub(crate) struct Variable<'d> {
    pub(crate) name: &'d str,
    pub(crate) value: Value<'d>,
    // The number of the next older variable of this name, which this one hides.
    pub(crate) hidden: Option<usize>,
}

/// Variables with their values, of which the newest one of a name counts. It is found without going through them. Contracts see
/// their names with their values, the newest first.
#[derive(Debug, Drop)]
pub struct VariableStack<'d> {
    // The oldest first: its number is 0, and no later one changes a number.
    all: Vec<Variable<'d>>,
    // Of each name that a variable has, the number of the newest one; of another name no number, or any.
    newest: BTreeMap<&'d str, usize>,
}

impl<'d> Model for VariableStack<'d> {
    ghost use Rattle.std.specs.Prelude.{map, reverse};
    ghost use Rattle.tpl_eval.specs.Evaluating.{Variables};
    ghost use Rattle.tpl_eval.specs.Newest.{AreFound, label, variable_view};
    ghost use Rattle.tpl_eval.specs.VariablesCode.{variables_code};

    ghost Value = { Variables };

    ghost coded = { variables_code };

    ghost view = { λ s. map variable_view (reverse s.all.items) };

    ghost invariant = { λ s. AreFound (map label (reverse s.all.items)) s.newest };
}

impl<'d> VariableStack<'d> {
    ghost use Rattle.tpl_eval.specs.Evaluating.{scope_assigned};

    /// `$` alone, whose name is empty. Fails only if allocation fails.
    pub fn root(alloc: Global, value: Value<'d>) -> Result<VariableStack<'d>, Memory>
        ensures { IfOk result (λ root. root ≡ ([], value_view value.entry) ∷ []) }
    {
        let mut variables = VariableStack {
            all: Vec::new(alloc),
            newest: BTreeMap::new(alloc),
        };
        variables.push("", value)?;
        Ok(variables)
    }

    /// How many they are.
    pub fn len(&self) -> usize
        ensures { result ≡ length self.now }
    {
        self.all.len()
    }

    /// One variable more. Fails only if allocation fails, and then they are as they were.
    pub fn push(&mut self, name: &'d str, value: Value<'d>) -> Result<(), Memory>
        ensures ok { OnOk result (self.new ≡ (name.now, value_view value.entry) ∷ self.old) }
        ensures err { OnErr result (self.new ≡ self.old) }
    {
        let number = self.all.len();
        let hidden = self.number_of(name);
        self.all.push(Variable {
            name,
            value,
            hidden,
        })?;
        match self.newest.insert(name, number) {
            Ok(_) => Ok(()),
            Err(_) => {
                self.all.pop();
                Err(Memory)
            }
        }
    }

    /// Another value for the newest variable of a name; nothing changes where there is none.
    pub fn assign(&mut self, name: &str, value: Value<'d>)
        ensures { self.new ≡ scope_assigned name.now (value_view value.entry) self.old }
    {
        if let Some(number) = self.number_of(name) {
            self.all[number].value = value;
        }
    }

    /// Keeps the oldest ones, so many, and drops those that are newer. Takes time in proportion to those that it drops.
    pub fn truncate(&mut self, count: usize)
        ensures { self.new ≡ drop (length self.old - count) self.old }
    {
        while self.len() > count {
            self.drop_newest();
        }
    }

    // All but the newest one, where there is one.
    fn drop_newest(&mut self)
        ensures { self.new ≡ drop 1 self.old }
    {
        if let Some(variable) = self.all.pop() {
            if let Some(number) = variable.hidden {
                // the name has a number in the map, so this takes no memory and cannot fail
                let _ = self.newest.insert(variable.name, number);
            }
        }
    }

    /// The value of the newest variable of a name, and null where there is none. The error is that of `Value::copy`.
    pub fn value_of(&self, name: &str) -> Result<Value<'d>, Memory>
        ensures { IfOk result (λ value. value_view value ≡ variable_value name.now self.now) }
    {
        match self.number_of(name) {
            Some(number) => self.all[number].value.copy(),
            None => Ok(Value::Lent(DatumRef::Null)),
        }
    }

    // The number of the newest variable of a name, counted from the oldest one.
    fn number_of(&self, name: &str) -> Option<usize>
        ensures number { result ≡ newest_at name.now self.now }
        ensures bound { IfSome result (λ number. number < length self.now) }
    {
        let number = match self.newest.get(name) {
            Some(number) => *number,
            None => return None,
        };
        match self.all.as_slice().get(number) {
            Some(variable) if variable.name == name => Some(number),
            _ => None,
        }
    }
}
