ghost use Rattle.std.specs.Prelude.{◌≡◌, IfOk};
ghost use Rattle.page_datum.specs.Data.{text};
ghost use Rattle.page_datum.specs.View.{ref_view};
ghost use Rattle.tpl_eval.specs.Values.{FoundAnswers, value_view};
ghost use Rattle.tpl_eval.specs.Evaluating.{evaluated_within};
ghost use Rattle.tpl_eval.specs.Selectors.{part_by, part_of_text, selected_by};
ghost use Rattle.tpl_value.specs.Picking.{PickAnswers};

use page_datum::{DatumRef, FaultKind};
use page_io::{Memory, Names, Text};
use std::alloc::Global;
use std::rc::Rc;
use tpl_value::{Picked, field, index};

/// A value that a pipe gives, that a variable has, or that is dot. It is small, and a copy of it copies no text and no list.
#[derive(Debug, Drop)]
pub enum Value<'d> {
    /// One that stands in the data of the page or in its templates, or a part of one.
    Lent(DatumRef<'d>),
    /// A text that a function made. All copies of the value own it together.
    Made(Rc<Text>),
}

impl<'d> Value<'d> {
    /// A text that was made. Fails only if allocation fails.
    pub fn made(alloc: Global, made: Text) -> Result<Value<'d>, Memory>
        ensures { IfOk result (λ value. value_view value ≡ text made) }
    {
        Ok(Value::Made(Rc::new(alloc, made)?))
    }

    /// The value, lent.
    pub fn datum(&self) -> DatumRef<'_>
        ensures { ref_view result ≡ value_view self.now }
    {
        match self {
            Value::Lent(datum) => *datum,
            Value::Made(text) => DatumRef::Text(text.as_str()),
        }
    }

    /// An equal value. It copies neither texts nor lists. The error is that a text has more owners than are counted.
    pub fn copy(&self) -> Result<Value<'d>, Memory>
        ensures { IfOk result (λ copy. value_view copy ≡ value_view self.now) }
    {
        match self {
            Value::Lent(datum) => Ok(Value::Lent(*datum)),
            Value::Made(text) => Ok(Value::Made(text.clone()?)),
        }
    }
}

/// What leads from a value to a part of it.
#[derive(Clone, Copy, Drop)]
pub(crate) enum Selector<'k> {
    /// The name of a field.
    Field(&'k str),
    /// The key of an index.
    Key(DatumRef<'k>),
}

/// The part of a value that a selector leads to, null where a dictionary lacks it. The errors are those of `tpl_value::field` and of
/// `tpl_value::index`. Does not allocate.
pub(crate) fn part_of<'d>(value: Value<'d>, by: Selector<'_>) -> Result<Value<'d>, FaultKind>
    ensures { FoundAnswers (part_by by.entry (value_view value.entry)) result }
{
    match value {
        Value::Lent(datum) => match selected(datum, by) {
            Ok(Picked::Value(part)) => Ok(Value::Lent(part.as_ref())),
            Ok(Picked::Nothing) => Ok(Value::Lent(DatumRef::Null)),
            Err(kind) => Err(kind),
        },
        Value::Made(_) => Err(no_part(by)),
    }
}

fn selected<'a>(datum: DatumRef<'a>, by: Selector<'_>) -> Result<Picked<'a>, FaultKind>
    ensures { PickAnswers (selected_by by.entry (ref_view datum.entry)) result }
{
    match by {
        Selector::Field(name) => field(datum, name),
        Selector::Key(key) => index(datum, key),
    }
}

// Why a text has no such part.
fn no_part(by: Selector<'_>) -> FaultKind
    ensures { result ≡ part_of_text by.entry }
{
    match by {
        Selector::Field(_) => FaultKind::NoField,
        Selector::Key(_) => FaultKind::NotIndexable,
    }
}

/// The value of a field within a value, and of that the value of the next one.
pub(crate) fn fields_within<'d>(value: Value<'d>, names: &Names) -> Result<Value<'d>, FaultKind>
    ensures { FoundAnswers (evaluated_within (value_view value.entry) names.now) result }
{
    let mut value = value;
    for name in names.as_slice() {
        value = match part_of(value, Selector::Field(name.as_str())) {
            Ok(part) => part,
            Err(kind) => return Err(kind),
        };
    }
    Ok(value)
}
