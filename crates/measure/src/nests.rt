ghost use Rattle.std.specs.Prelude.{◌≤◌, IfOk, length, string_bytes};
ghost use Rattle.page_datum.specs.Reading.{max_length};

use crate::units::push_units;
use std::alloc::{AllocError, Global};

/// What a nest is made of.
#[derive(Clone, Copy)]
pub struct Nest<'t> {
    /// What stands before the first level.
    pub front: &'t str,
    /// The beginning of a level.
    pub begin: &'t str,
    /// Its end.
    pub end: &'t str,
    /// What stands after the last level.
    pub back: &'t str,
}

// How many levels a nest has, which is one fewer than a template may have.
const LEVELS: usize = 99;

/// As many nests as fit. Where none fits, one with as many levels as fit.
pub fn nests(alloc: Global, nest: Nest<'_>, size: usize) -> Result<String, AllocError>
    requires { size ≤ max_length }
    ensures { IfOk result (λ text. length (string_bytes text) ≤ size) }
{
    let mut text = String::new(alloc);
    let one = nest_of(alloc, nest, levels_in(nest, size))?;
    if !one.is_empty() {
        push_units(&mut text, one.as_str(), size)?;
    }
    Ok(text)
}

// How many levels a nest has that fits.
fn levels_in(nest: Nest<'_>, size: usize) -> usize {
    let around = nest.front.len() + nest.back.len();
    let level = nest.begin.len() + nest.end.len();
    if level == 0 {
        return 0;
    }
    LEVELS.min(size.saturating_sub(around) / level)
}

fn nest_of(alloc: Global, nest: Nest<'_>, levels: usize) -> Result<String, AllocError> {
    let mut text = String::new(alloc);
    text.push_str(nest.front)?;
    push_times(&mut text, nest.begin, levels)?;
    push_times(&mut text, nest.end, levels)?;
    text.push_str(nest.back)?;
    Ok(text)
}

fn push_times(text: &mut String, unit: &str, count: usize) -> Result<(), AllocError> {
    for _turn in 0..count {
        text.push_str(unit)?;
    }
    Ok(())
}
