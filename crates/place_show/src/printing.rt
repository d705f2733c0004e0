ghost use Rattle.std.specs.Prelude.{◌≡◌, IfOk};
ghost use Rattle.place_show.specs.PathTexts as spec;

use crate::showing::Choice;
use page_datum::legible;
use page_io::{List, Memory, Text};
use std::alloc::Global;
use tpl_paths::Way;

/// A path as it is printed: its choices with blanks between, or `start` where it has none. Fails only if allocation fails.
pub fn path_text(alloc: Global, path: &List<Choice>) -> Result<Text, Memory>
    ensures { IfOk result (λ text. text ≡ spec.path_text path.now) }
{
    let Some((first, more)) = path.as_slice().split_first() else {
        return Text::copy_of(alloc, "start");
    };
    let mut text = choice_text(alloc, first)?;
    for choice in more {
        text.push_str(" ")?;
        text.push_str(choice_text(alloc, choice)?.as_str())?;
    }
    Ok(text)
}

/// A choice as it is printed: `TEMPLATE:LINE:WAY`, with the name of the template as it stands in a line for people. Fails only if allocation fails.
pub fn choice_text(alloc: Global, choice: &Choice) -> Result<Text, Memory>
    ensures { IfOk result (λ text. text ≡ spec.choice_text choice.now) }
{
    let template = legible(alloc, choice.template.as_str())?;
    let (template, line, way) = (template.as_str(), choice.line, way_text(choice.way));
    Ok(Text::from(format!(in alloc; "{template}:{line}:{way}")?))
}

fn way_text(way: Way) -> &'static str
    ensures { result.now ≡ spec.way_text way }
{
    match way {
        Way::Then => "then",
        Way::Else => "else",
        Way::Turn => "turn",
        Way::Done => "done",
    }
}
