ghost use Rattle.std.specs.Prelude.{◌≡◌, [], IfOk};
ghost use Rattle.std.specs.Fmt.{decimal};
ghost use Rattle.page_datum.specs.Reading.{data_of, items_of, entries_of};
ghost use Rattle.page_io.specs.Stops.{StopAnswers};
ghost use Rattle.page_datum.specs.View.{view};
ghost use Rattle.serde_json.specs.View as view_spec;
ghost use Rattle.page_datum.specs.Reading as spec;

use crate::datum::{Datum, Entries, Items};
use page_io::{Memory, Stop, Text};
use serde_json::Value;
use serde_json::value::Map;
use std::alloc::Global;

// The datum that a JSON value stands for, or the path of the first number that is not whole.
#[cycle(take)]
pub(crate) fn take(alloc: Global, value: Value) -> Result<Datum, Stop<Text>>
    ensures { StopAnswers view result (data_of (view_spec.view value)) }
{
    match value {
        Value::Null => Ok(Datum::Null),
        Value::Bool(truth) => Ok(Datum::Bool(truth)),
        Value::Number(number) => match number.as_i64() {
            Some(number) => Ok(Datum::Int(number)),
            None => Err(Stop::Cause(Text::new(alloc))),
        },
        Value::String(text) => Ok(Datum::Text(Text::from(text))),
        Value::Array(items) => match take_items(alloc, items) {
            Ok(items) => Ok(Datum::List(items)),
            Err(why) => Err(why),
        },
        Value::Object(members) => match take_members(alloc, members) {
            Ok(entries) => Ok(Datum::Dict(entries)),
            Err(why) => Err(why),
        },
    }
}

#[cycle(take)]
fn take_items(alloc: Global, items: Vec<Value>) -> Result<Items, Stop<Text>>
    ensures { StopAnswers (λ items. items) result (items_of 0 (view_spec.items_view items.items)) }
{
    let mut taken = with_room(alloc, items.len())?;
    for item in items {
        match take(alloc, item) {
            Ok(datum) => taken.push(datum)?,
            Err(Stop::Cause(path)) => {
                let path = numbered(alloc, taken.len(), &path)?;
                return Err(Stop::Cause(path));
            }
            Err(Stop::Memory) => return Err(Stop::Memory),
        }
    }
    Ok(Items::from(taken))
}

#[cycle(take)]
fn take_members(alloc: Global, members: Map<String, Value>) -> Result<Entries, Stop<Text>>
    ensures { let made = entries_of (view_spec.members_view members.entries) in
        StopAnswers (λ entries. entries) result made }
{
    let mut taken = with_room(alloc, members.len())?;
    for (key, value) in members {
        match take(alloc, value) {
            Ok(datum) => taken.push((Text::from(key), datum))?,
            Err(Stop::Cause(path)) => {
                let path = within(alloc, key.as_str(), &path)?;
                return Err(Stop::Cause(path));
            }
            Err(Stop::Memory) => return Err(Stop::Memory),
        }
    }
    Ok(Entries::from_ascending(taken))
}

// An empty vector with room for exactly so many values, since data may have many short lists.
fn with_room<T>(alloc: Global, count: usize) -> Result<Vec<T>, Memory>
    ensures { IfOk result (λ room. room.items ≡ []) }
{
    Ok(Vec::with_capacity(alloc, count)?)
}

// The path of what has a path within the item with a number.
fn numbered(alloc: Global, number: usize, path: &Text) -> Result<Text, Memory>
    ensures { IfOk result (λ whole. whole ≡ spec.within_part (decimal number) path.now) }
{
    let digits = format!(in alloc; "{number}")?;
    within(alloc, digits.as_str(), path)
}

// The path of what has a path within the value of a key.
fn within(alloc: Global, step: &str, path: &Text) -> Result<Text, Memory>
    ensures { IfOk result (λ whole. whole ≡ spec.within_part step.now path.now) }
{
    let mut whole = Text::copy_of(alloc, ".")?;
    whole.push_str(step)?;
    whole.push_str(path.as_str())?;
    Ok(whole)
}
