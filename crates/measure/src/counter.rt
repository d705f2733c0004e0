ghost use Rattle.std.specs.Prelude.{◌≤◌, length};
ghost use Rattle.tpl_token.specs.Answers.{max_template_text};

use crate::forest::{NAME, forest_of};
use page_datum::{DataRefused, Datum, DatumRef, read_datum};
use std::alloc::{AllocError, Global};
use tpl_exec::{ExecStop, HoleSink, HoleStop, execute};
use tpl_tree::Forest;

/// A sink that counts the events that it is given.
#[derive(Debug, Drop)]
struct Counter {
    events: u64,
}

impl Counter {
    fn count(&mut self) {
        self.events = self.events.saturating_add(1);
    }
}

impl HoleSink for Counter {
    ghost use Rattle.std.specs.Prelude.{⊤};

    ghost may = { λ _ _. ⊤ };

    ghost takes = { λ _ _ _. ⊤ };

    ghost refuses = { λ _ _ _ _. ⊤ };

    fn text(&mut self, _node: u32) -> Result<(), HoleStop> {
        self.count();
        Ok(())
    }

    fn hole(&mut self, _node: u32, _datum: DatumRef<'_>) -> Result<(), HoleStop> {
        self.count();
        Ok(())
    }

    fn call(&mut self, _node: u32) -> Result<(), HoleStop> {
        self.count();
        Ok(())
    }

    fn leave(&mut self) {
        self.count();
    }
}

/// The events and the steps of a template with the data that a text is.
pub fn executed_counted(alloc: Global, template: &str, text: &str) -> Result<String, AllocError>
    requires { length template.now ≤ max_template_text }
{
    let bytes = text.len();
    let datum = match read_datum(alloc, text.as_bytes()) {
        Ok(datum) => datum,
        Err(DataRefused::Memory) => return Err(AllocError),
        Err(_) => return format!(in alloc; "{bytes} bytes, refused"),
    };
    let forest = forest_of(alloc, template)?;
    let mut counter = Counter { events: 0 };
    match run(alloc, &forest, &datum, &mut counter) {
        Ok(steps) => {
            let events = counter.events;
            format!(in alloc; "{bytes} bytes, {events} events, {steps} steps")
        }
        Err(ExecStop::Memory) => Err(AllocError),
        Err(_) => {
            let events = counter.events;
            format!(in alloc; "{bytes} bytes, {events} events, and a fault")
        }
    }
}

// Executes the body of that file.
fn run(
    alloc: Global,
    forest: &Forest,
    datum: &Datum,
    counter: &mut Counter,
) -> Result<u64, ExecStop> {
    match forest.find(NAME) {
        Some(root) => execute(alloc, forest, root, datum, counter),
        None => Ok(0),
    }
}
