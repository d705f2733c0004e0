use crate::copy::copy_pipe;
use page_io::{Memory, Names, Text};
use std::alloc::Global;
use std::marker::Model;
use tpl_symbol::Func;

/// A pipe: commands of which each gives its value to the next one.
#[cycle(pipe)]
#[derive(Debug, Drop)]
pub struct Pipe {
    /// The commands, in order.
    pub commands: Commands,
}

/// One command of a pipe.
#[cycle(pipe)]
#[derive(Debug, Drop)]
pub enum Command {
    /// An operand alone.
    Single(Operand),
    /// A function and the operands that are written after it.
    Call(Func, Operands),
}

/// A base and the names of fields that follow it: `.a.b` is the dot with the fields `a` and `b`.
#[cycle(pipe)]
#[derive(Debug, Drop)]
pub struct Operand {
    /// What stands first.
    pub base: Base,
    /// The names of the fields, without their dots.
    pub fields: Names,
}

/// What an operand begins with.
#[cycle(pipe)]
#[derive(Debug, Drop)]
pub enum Base {
    /// A string, by its value.
    Str(Text),
    /// A number.
    Number(i64),
    /// `true` or `false`.
    Bool(bool),
    /// `nil`
    Nil,
    /// `.`
    Dot,
    /// A variable, by its name without `$`, so that `$` itself has the empty name.
    Variable(Text),
    /// A pipe in parentheses.
    Paren(Pipe),
}

/// The commands of a pipe, in order. Contracts see them as `PipeData` of `specs/Pipes.antt`.
#[cycle(pipe)]
#[derive(Debug, Drop)]
pub struct Commands {
    items: Vec<Command>,
}

/// The operands of a call, in order. Contracts see them as `OperandsData` of `specs/Pipes.antt`.
#[cycle(pipe)]
#[derive(Debug, Drop)]
pub struct Operands {
    items: Vec<Operand>,
}

impl Model for Commands {
    ghost use Rattle.std.proofs.Common.{arith};
    ghost use Rattle.tpl_tree.specs.Code.{pipe_code};
    ghost use Rattle.tpl_tree.specs.Pipes.{PipeData};
    ghost use Rattle.tpl_tree.specs.Sizes.{pipe_size};

    ghost Value = { PipeData };

    ghost coded = { pipe_code };

    ghost use Rattle.tpl_tree.specs.View.{commands_view};

    ghost view = { λ a. commands_view a.items.items };

    ghost size = { pipe_size };

    ghost use Rattle.tpl_tree.specs.Falls.{most_le-pipe_size};

    ghost size_decreases = { λ a h. omega (arith, most_le-pipe_size a.items.items) };
}

impl Model for Operands {
    ghost use Rattle.std.proofs.Common.{arith};
    ghost use Rattle.tpl_tree.specs.Code.{operands_code};
    ghost use Rattle.tpl_tree.specs.Pipes.{OperandsData};
    ghost use Rattle.tpl_tree.specs.Sizes.{operands_size};

    ghost Value = { OperandsData };

    ghost coded = { operands_code };

    ghost use Rattle.tpl_tree.specs.View.{operands_view};

    ghost view = { λ a. operands_view a.items.items };

    ghost size = { operands_size };

    ghost use Rattle.tpl_tree.specs.Falls.{most_le-operands_size};

    ghost size_decreases = { λ a h. omega (arith, most_le-operands_size a.items.items) };
}

impl Commands {
    ghost use Rattle.std.specs.Prelude.{◌≡◌, ◌<◌};
    ghost use Rattle.std.specs.List.{All};
    ghost use Rattle.tpl_tree.specs.Sizes.{command_size, pipe_size};
    ghost use Rattle.tpl_tree.specs.View.{command_view, commands_view};

    /// The commands in order. Each is smaller than the whole.
    pub fn as_slice(&self) -> &[Command]
        ensures all { commands_view result.now ≡ self.now }
        ensures smaller { All (λ c.
            command_size (command_view c) < pipe_size self.now) result.now }
    {
        self.items.as_slice()
    }

    /// Gives the vector back, taking no memory.
    pub fn into_vec(self) -> Vec<Command>
        ensures { commands_view result.items ≡ self }
    {
        self.items
    }
}

impl Operands {
    ghost use Rattle.std.specs.Prelude.{◌≡◌, ◌<◌};
    ghost use Rattle.std.specs.List.{All};
    ghost use Rattle.tpl_tree.specs.Sizes.{operand_size, operands_size};
    ghost use Rattle.tpl_tree.specs.View.{operand_view, operands_view};

    /// The operands in order. Each is smaller than the whole.
    pub fn as_slice(&self) -> &[Operand]
        ensures all { operands_view result.now ≡ self.now }
        ensures smaller { let size = operands_size self.now in
            All (λ o. operand_size (operand_view o) < size) result.now }
    {
        self.items.as_slice()
    }

    /// Gives the vector back, taking no memory.
    pub fn into_vec(self) -> Vec<Operand>
        ensures { operands_view result.items ≡ self }
    {
        self.items
    }
}

impl From<Vec<Command>> for Commands {
    ghost use Rattle.std.specs.Prelude.{◌≡◌};
    ghost use Rattle.tpl_tree.specs.View.{commands_view};

    ghost from_gives = { λ items made. made ≡ commands_view items.items };

    fn from(items: Vec<Command>) -> Commands {
        Commands { items }
    }
}

impl From<Vec<Operand>> for Operands {
    ghost use Rattle.std.specs.Prelude.{◌≡◌};
    ghost use Rattle.tpl_tree.specs.View.{operands_view};

    ghost from_gives = { λ items made. made ≡ operands_view items.items };

    fn from(items: Vec<Operand>) -> Operands {
        Operands { items }
    }
}

impl Pipe {
    ghost use Rattle.std.specs.Prelude.{◌≡◌, IfOk};

    /// An equal pipe. Fails only if allocation fails.
    pub fn copy(&self, alloc: Global) -> Result<Pipe, Memory>
        ensures { IfOk result (λ copy. copy ≡ self.now) }
    {
        copy_pipe(alloc, self)
    }
}
