ghost use Rattle.std.specs.Prelude.{◌≡◌};
ghost use Rattle.tpl_tree.specs.View.{base_view, command_view, commands_view, operand_view};
ghost use Rattle.place_flow.specs.Naming as spec;

use tpl_tree::{Base, Command, Func, Operand, Operands, Pipe};

/// Whether an escaper stands anywhere in a pipe, also within parentheses.
#[cycle(naming)]
pub fn names_escaper(pipe: &Pipe) -> bool
    ensures { result ≡ spec.names_escaper pipe.now.commands }
{
    for command in pipe.commands.as_slice() {
        if command_names_escaper(command) {
            return true;
        }
    }
    false
}

/// Whether an escaper stands in one of some commands.
pub fn commands_name_escaper(commands: &[Command]) -> bool
    ensures { result ≡ spec.names_escaper (commands_view commands.now) }
{
    for command in commands {
        if command_names_escaper(command) {
            return true;
        }
    }
    false
}

#[cycle(naming)]
fn command_names_escaper(command: &Command) -> bool
    ensures { result ≡ spec.command_names_escaper (command_view command.now) }
{
    match command {
        Command::Single(operand) => operand_names_escaper(operand),
        Command::Call(func, operands) => is_escaper(*func) || operands_name_escaper(operands),
    }
}

/// Whether an escaper stands within one of some operands.
#[cycle(naming)]
pub fn operands_name_escaper(operands: &Operands) -> bool
    ensures { result ≡ spec.operands_name_escaper operands.now }
{
    for operand in operands.as_slice() {
        if operand_names_escaper(operand) {
            return true;
        }
    }
    false
}

/// Whether an escaper stands within an operand.
#[cycle(naming)]
pub fn operand_names_escaper(operand: &Operand) -> bool
    ensures { result ≡ spec.operand_names_escaper (operand_view operand.now) }
{
    base_names_escaper(&operand.base)
}

#[cycle(naming)]
fn base_names_escaper(base: &Base) -> bool
    ensures { result ≡ spec.base_names_escaper (base_view base.now) }
{
    match base {
        Base::Paren(pipe) => names_escaper(pipe),
        Base::Str(_) => false,
        Base::Number(_) => false,
        Base::Bool(_) => false,
        Base::Nil => false,
        Base::Dot => false,
        Base::Variable(_) => false,
    }
}

// Whether a function is `html` or `urlquery`.
fn is_escaper(func: Func) -> bool
    ensures { result ≡ spec.is_escaper_function func }
{
    match func {
        Func::Html | Func::Urlquery => true,
        _ => false,
    }
}
