ghost use Rattle.std.specs.Prelude.{◌≡◌};
ghost use Rattle.tpl_parse.specs.Actions.{ActionAnswers};
ghost use Rattle.tpl_pipe.specs.Reading as reading;
ghost use Rattle.tpl_parse.specs.Actions as spec;

use crate::action::ActionState;
use crate::pipe::{plain, room_in};
use crate::refused::RefusalCause;
use crate::variable::{undeclared, variable_state};
use page_io::{Stop, Text};
use std::alloc::Global;
use std::mem;
use tpl_build::{ActionKind, Builder, Purpose};
use tpl_pipe::{ParseRefused, PipeState, finish};

// What an action says that ends on this line.
pub fn action_kind_of(
    alloc: Global,
    builder: &Builder,
    action: &mut ActionState,
    line: u32,
) -> Result<ActionKind, Stop<RefusalCause>>
    ensures { ActionAnswers result (spec.action_kind_of action.old builder.now line) }
{
    match action {
        ActionState::Start => Err(Stop::Cause((ParseRefused::EmptyPipeline, line))),
        ActionState::AfterWord(_) => Err(Stop::Cause((ParseRefused::EmptyPipeline, line))),
        ActionState::Named(before, name, at) => {
            if !builder.variables.has(name) {
                return Err(Stop::Cause((ParseRefused::UndefinedVariable, *at)));
            }
            let before = *before;
            let name = mem::replace(name, Text::new(alloc));
            let mut state = variable_state(alloc, room_in(before, builder.room), name);
            piped(alloc, plain(before), line, &mut state)
        }
        ActionState::SecondNamed(_, element, at) => Err(undeclared(builder, element, *at, line)),
        ActionState::Pipe(purpose, state) => {
            let purpose = mem::replace(purpose, Purpose::Write);
            piped(alloc, purpose, line, state)
        }
        ActionState::Else => Ok(ActionKind::Else),
        ActionState::End => Ok(ActionKind::End),
        ActionState::Break => Ok(ActionKind::Break),
        ActionState::Continue => Ok(ActionKind::Continue),
        ActionState::TemplateNamed(name) => Ok(ActionKind::Call(mem::replace(
            name,
            Text::new(alloc),
        ))),
        ActionState::DefineNamed(name, word) => {
            let word = *word;
            Ok(ActionKind::Define(mem::replace(name, Text::new(alloc)), word))
        }
        _ => Err(Stop::Cause((ParseRefused::UnexpectedToken, line))),
    }
}

fn piped(
    alloc: Global,
    purpose: Purpose,
    line: u32,
    state: &mut PipeState,
) -> Result<ActionKind, Stop<RefusalCause>>
    ensures { ActionAnswers result (spec.piped purpose line (reading.pipe_finish state.old)) }
{
    match finish(alloc, state) {
        Ok(pipe) => Ok(ActionKind::Piped(purpose, pipe)),
        Err(Stop::Cause(refused)) => Err(Stop::Cause((refused, line))),
        Err(Stop::Memory) => Err(Stop::Memory),
    }
}
