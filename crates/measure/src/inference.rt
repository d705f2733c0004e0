ghost use Rattle.std.specs.Prelude.{◌≤◌, length};
ghost use Rattle.tpl_token.specs.Answers.{max_template_text};

use crate::forest::{NAME, forest_of};
use page_io::{List, Memory, Names, Text};
use place_infer::{SetRefused, infer};
use std::alloc::{AllocError, Global};

/// The templates of a file.
pub fn templates_counted(alloc: Global, text: &str) -> Result<String, AllocError>
    requires { length text.now ≤ max_template_text }
{
    let bytes = text.len();
    let forest = forest_of(alloc, text)?;
    let count = forest.count();
    format!(in alloc; "{bytes} bytes, {count} templates")
}

/// The pairs of the chart of a file, whose own template is the root.
pub fn pairs_counted(alloc: Global, text: &str) -> Result<String, AllocError>
    requires { length text.now ≤ max_template_text }
{
    let bytes = text.len();
    let forest = forest_of(alloc, text)?;
    let roots = match root(alloc) {
        Ok(roots) => roots,
        Err(Memory) => return Err(AllocError),
    };
    match infer(alloc, &forest, &roots) {
        Ok(chart) => {
            let count = chart.pairs();
            format!(in alloc; "{bytes} bytes, {count} pairs")
        }
        Err(SetRefused::Memory) => Err(AllocError),
        Err(_) => format!(in alloc; "{bytes} bytes, refused"),
    }
}

// The file's name alone.
fn root(alloc: Global) -> Result<Names, Memory> {
    let mut roots = List::new(alloc);
    roots.push(Text::copy_of(alloc, NAME)?)?;
    Ok(roots)
}
