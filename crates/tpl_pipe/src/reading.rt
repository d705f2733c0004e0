ghost use Rattle.std.specs.Prelude.{◌≡◌, IfOk, OnOk, [], ◌∷◌, Ok, Err};
ghost use Rattle.tpl_pipe.specs.Levels.{fresh, with_own_field};
ghost use Rattle.page_io.specs.Stops.{StopAnswers};
ghost use Rattle.tpl_pipe.specs.Reading.{ReadAnswers, closed, next_command};
ghost use Rattle.tpl_pipe.specs.Reading.{pipe_state};
ghost use Rattle.tpl_pipe.specs.Reading.{function_read, read_kind};
ghost use Rattle.tpl_pipe.specs.Reading.{operand_read};
ghost use Rattle.tpl_pipe.specs.Reading.{variable_read};
ghost use Rattle.tpl_tree.specs.declared.pipe.Base.TheVariants as base;
ghost use Rattle.tpl_tree.specs.View.{pipe_view};
ghost use Rattle.tpl_pipe.specs.Reading as spec;

use crate::level::{
    add_field, add_operand, ended, fresh_level, last_takes, take_pipe, takes_operand,
};
use crate::pipe_state::{Current, Level, PipeState};
use crate::refused::ParseRefused;
use crate::variables::Variables;
use page_io::{List, Memory, Stack, Stop, Text};
use std::alloc::Global;
use std::mem;
use tpl_symbol::{Symbol, SymbolKind, Word};
use tpl_tree::{Base, Func, Operand, Pipe};

const UNEXPECTED: Stop<ParseRefused> = Stop::Cause(ParseRefused::UnexpectedToken);

/// The state before a pipe, in which so many parentheses may be opened.
#[inline(always)]
pub fn pipe_start(alloc: Global, room: u32) -> PipeState
    ensures { result ≡ pipe_state [] (fresh room) }
{
    PipeState {
        outer: Stack::new(alloc),
        level: fresh_level(alloc, room),
    }
}

/// Goes on to the state after the next symbol of a pipe, where these variables are declared.
#[inline(always)]
pub fn read(
    alloc: Global,
    variables: &Variables,
    at: &mut PipeState,
    symbol: &Symbol,
) -> Result<(), Stop<ParseRefused>>
    ensures { ReadAnswers result at.new (spec.read_pipe_symbol variables.now at.old symbol.now) }
{
    match &symbol.kind {
        SymbolKind::Str(value) => match copy(alloc, value) {
            Ok(value) => read_operand(alloc, Base::Str(value), at),
            Err(Memory) => Err(Stop::Memory),
        },
        SymbolKind::Number(number) => read_operand(alloc, Base::Number(*number), at),
        SymbolKind::Dot => read_operand(alloc, Base::Dot, at),
        SymbolKind::Word(word) => read_word(alloc, *word, at),
        SymbolKind::Variable(name) => read_variable(alloc, variables, name, at),
        SymbolKind::Field(name) => read_field(alloc, name, symbol.touches, at),
        SymbolKind::Left => read_left(alloc, at),
        SymbolKind::Right => read_right(alloc, at),
        SymbolKind::Bar => read_bar(at),
        SymbolKind::Function(func) => read_function(alloc, *func, at),
        SymbolKind::Unknown => Err(Stop::Cause(unknown(&at.level.current))),
        _ => Err(UNEXPECTED),
    }
}

/// The pipe that the end of its action ends in this state, and which is taken out of it.
#[inline(always)]
pub fn finish(alloc: Global, at: &mut PipeState) -> Result<Pipe, Stop<ParseRefused>>
    ensures { StopAnswers pipe_view result (spec.pipe_finish at.old) }
{
    if at.outer.is_empty() {
        take_pipe(alloc, &mut at.level)
    } else {
        Err(UNEXPECTED)
    }
}

fn copy(alloc: Global, text: &Text) -> Result<Text, Memory>
    ensures { IfOk result (λ copy. copy ≡ text.now) }
{
    Text::copy_of(alloc, text.as_str())
}

#[inline(always)]
fn read_operand(alloc: Global, base: Base, at: &mut PipeState) -> Result<(), Stop<ParseRefused>>
    ensures { ReadAnswers result at.new (operand_read base at.old) }
{
    if !takes_operand(&at.level) {
        return Err(UNEXPECTED);
    }
    let operand = Operand {
        base,
        fields: List::new(alloc),
    };
    match add_operand(&mut at.level, operand) {
        Ok(()) => Ok(()),
        Err(Memory) => Err(Stop::Memory),
    }
}

fn read_word(alloc: Global, word: Word, at: &mut PipeState) -> Result<(), Stop<ParseRefused>>
    ensures { ReadAnswers result at.new (spec.read_word word at.old.outer at.old.level) }
{
    match word {
        Word::True => read_operand(alloc, Base::Bool(true), at),
        Word::False => read_operand(alloc, Base::Bool(false), at),
        Word::Nil => match &at.level.current {
            // Alone it is no command.
            Current::Nothing => Err(UNEXPECTED),
            Current::Alone(_) => Err(UNEXPECTED),
            Current::Calls(_, _) => read_operand(alloc, Base::Nil, at),
        },
        _ => Err(UNEXPECTED),
    }
}

fn read_variable(
    alloc: Global,
    variables: &Variables,
    name: &Text,
    at: &mut PipeState,
) -> Result<(), Stop<ParseRefused>>
    ensures { ReadAnswers result at.new (variable_read variables.now name.now at.old) }
{
    if !takes_operand(&at.level) {
        return Err(UNEXPECTED);
    }
    if !variables.has(name) {
        return Err(Stop::Cause(ParseRefused::UndefinedVariable));
    }
    match copy(alloc, name) {
        Ok(name) => read_operand(alloc, Base::Variable(name), at),
        Err(Memory) => Err(Stop::Memory),
    }
}

// A field of the operand that it touches, or an operand of its own.
fn read_field(
    alloc: Global,
    name: &Text,
    touches: bool,
    at: &mut PipeState,
) -> Result<(), Stop<ParseRefused>>
    ensures { ReadAnswers result at.new
        (spec.read_field name.now touches at.old.outer at.old.level) }
{
    let Ok(name) = copy(alloc, name) else {
        return Err(Stop::Memory);
    };
    let added = if touches && last_takes(&at.level.current) {
        add_field(&mut at.level, name)
    } else if takes_operand(&at.level) {
        add_own_field(alloc, &mut at.level, name)
    } else {
        return Err(UNEXPECTED);
    };
    match added {
        Ok(()) => Ok(()),
        Err(Memory) => Err(Stop::Memory),
    }
}

// Adds an operand that is a field. It takes room for that field alone, since most have no other.
fn add_own_field(alloc: Global, level: &mut Level, name: Text) -> Result<(), Memory>
    ensures { OnOk result (level.new ≡ with_own_field name level.old) }
{
    let mut fields = Vec::with_capacity(alloc, 1)?;
    fields.push(name)?;
    add_operand(
        level,
        Operand {
            base: Base::Dot,
            fields: List::from(fields),
        },
    )
}

fn read_left(alloc: Global, at: &mut PipeState) -> Result<(), Stop<ParseRefused>>
    ensures { ReadAnswers result at.new
        (spec.read_left at.old.level.room at.old.outer at.old.level) }
{
    if !takes_operand(&at.level) {
        return Err(UNEXPECTED);
    }
    if at.level.room == 0 {
        return Err(Stop::Cause(ParseRefused::TooNested));
    }
    let inner = fresh_level(alloc, at.level.room - 1);
    let around = mem::replace(&mut at.level, inner);
    match at.outer.push(around) {
        Ok(()) => Ok(()),
        Err(Memory) => Err(Stop::Memory),
    }
}

fn read_right(alloc: Global, at: &mut PipeState) -> Result<(), Stop<ParseRefused>>
    ensures { ReadAnswers result at.new (spec.read_right at.old.outer at.old.level) }
{
    let Some(around) = at.outer.pop() else {
        return Err(UNEXPECTED);
    };
    let mut level = mem::replace(&mut at.level, around);
    match take_pipe(alloc, &mut level) {
        Ok(pipe) => {
            let operand = Operand {
                base: Base::Paren(pipe),
                fields: List::new(alloc),
            };
            match add_operand(&mut at.level, operand) {
                Ok(()) => Ok(()),
                Err(Memory) => Err(Stop::Memory),
            }
        }
        Err(stop) => Err(stop),
    }
}

fn read_bar(at: &mut PipeState) -> Result<(), Stop<ParseRefused>>
    ensures { ReadAnswers result at.new (spec.read_bar at.old.outer at.old.level) }
{
    let current = mem::replace(&mut at.level.current, Current::Nothing);
    let Some(command) = ended(current) else {
        return Err(UNEXPECTED);
    };
    match at.level.commands.push(command) {
        Ok(()) => Ok(()),
        Err(Memory) => Err(Stop::Memory),
    }
}

fn read_function(alloc: Global, func: Func, at: &mut PipeState) -> Result<(), Stop<ParseRefused>>
    ensures { ReadAnswers result at.new (function_read func at.old) }
{
    match &at.level.current {
        Current::Nothing => {
            at.level.current = Current::Calls(func, Stack::new(alloc));
            Ok(())
        }
        _ => Err(UNEXPECTED),
    }
}

// Why a name that is no function's is refused.
fn unknown(current: &Current) -> ParseRefused
    ensures { spec.read_unknown current.now ≡ Err result }
{
    match current {
        Current::Nothing => ParseRefused::UnknownFunction,
        _ => ParseRefused::UnexpectedToken,
    }
}
