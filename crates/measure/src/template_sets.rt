ghost use Rattle.std.specs.Prelude.{◌≤◌, IfOk, length, string_bytes};
ghost use Rattle.page_datum.specs.Reading.{max_length};

use crate::units::push_within;
use std::alloc::{AllocError, Global};

// Calls of a template in text, in a tag, in values without quotes and with each kind of them, in a comment and in the elements `title` and
// `textarea`; it has to lead from each of these back to text.
const EIGHT_CALLS: &str =
    "{{template \"#\"}}<p {{template \"#\"}}<p x=y{{template \"#\"}}<p x='{{template \"#\"}}<p x=\"{{template \"#\"}}<!-- {{template \"#\"}}<title>{{template \"#\"}}<textarea>{{template \"#\"}}";

// What leads from each of these places to text.
const TO_TEXT: &str = ">\">'>--></title></textarea>";

// Calls of a template in the same places, where it has to stay.
const EIGHT_ENTRIES: &str =
    "{{template \"#\"}}<p {{template \"#\"}}><p x=y{{template \"#\"}}><p x='{{template \"#\"}}'><p x=\"{{template \"#\"}}\"><!-- {{template \"#\"}} --><title>{{template \"#\"}}</title><textarea>{{template \"#\"}}</textarea>";

const ONE_CALL: &str = "{{template \"#\"}}";

// The most bytes that the definition of the last template may have.
const LAST: usize = 64;

/// As many templates as fit, each of which calls the next one in eight places. Each leads from each of these to text.
pub fn chain(alloc: Global, size: usize) -> Result<String, AllocError>
    requires { size ≤ max_length }
    ensures { IfOk result (λ text. length (string_bytes text) ≤ size) }
{
    linked(alloc, EIGHT_CALLS, EIGHT_CALLS, TO_TEXT, size)
}

/// As many templates as fit, each of which calls the next one. The first one is called in eight places.
pub fn pairs(alloc: Global, size: usize) -> Result<String, AllocError>
    requires { size ≤ max_length }
    ensures { IfOk result (λ text. length (string_bytes text) ≤ size) }
{
    linked(alloc, EIGHT_ENTRIES, ONE_CALL, "", size)
}

// What calls the template 0; then each template up to the last one, which calls the one after it; and the last one. What calls a template
// has `#` in the place of its number. Nothing where the first of these does not fit.
fn linked(
    alloc: Global,
    first: &str,
    calls: &str,
    last: &str,
    size: usize,
) -> Result<String, AllocError>
    requires { size ≤ max_length }
    ensures { IfOk result (λ text. length (string_bytes text) ≤ size) }
{
    let mut text = String::new(alloc);
    push_within(&mut text, numbered(alloc, first, 0)?.as_str(), size)?;
    let room = size.saturating_sub(LAST);
    for number in 0..size {
        let body = numbered(alloc, calls, number + 1)?;
        let one = defined(alloc, number, body.as_str())?;
        if text.len() + one.len() > room {
            push_within(&mut text, defined(alloc, number, last)?.as_str(), size)?;
            return Ok(text);
        }
        text.push_str(one.as_str())?;
    }
    Ok(text)
}

// A text with a number in the place of each `#`.
fn numbered(alloc: Global, text: &str, number: usize) -> Result<String, AllocError> {
    let digits = format!(in alloc; "{number}")?;
    text.replace(alloc, '#', digits.as_str())
}

// The definition of a template by its number.
fn defined(alloc: Global, number: usize, body: &str) -> Result<String, AllocError> {
    format!(in alloc; "{{{{define \"{number}\"}}}}{body}{{{{end}}}}")
}
