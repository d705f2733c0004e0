ghost use Rattle.std.specs.Prelude.{◌≡◌};
ghost use Rattle.tpl_tree.specs.View.{command_view, commands_view, operands_view};
ghost use Rattle.place_flow.specs.Uses.{kind_use};
ghost use Rattle.place_flow.specs.Uses.{use_of};
ghost use Rattle.place_flow.specs.Naming as spec;
ghost use Rattle.place_flow.specs.Uses as uses_spec;

use crate::naming::{
    commands_name_escaper, names_escaper, operand_names_escaper, operands_name_escaper,
};
use crate::predefined::Predefined;
use tpl_tree::{Command, Func, NodeKind, Operand, Pipe};

/// How a node uses the predefined escapers.
#[derive(Clone, Copy, Debug)]
pub enum EscaperUse {
    /// Not at all: `{{.a}}`.
    Nothing,
    /// One is the last command of a hole, and has one operand: `{{html .a}}` or `{{.a | html}}`. It is dropped there, and
    /// its operand stands.
    Last(Predefined),
    /// In any other way: `{{.a | html | len}}`, `{{html .a .b}}`, `{{(html .a)}}`, `{{if html .a}}`.
    Misused,
}

/// How a node uses the predefined escapers `html` and `urlquery`. One may stand only as the last command of a hole, with
/// exactly one operand, written or piped: `{{html .a}}` and `{{.a | html}}` are `Last(Html)`. `Misused` is each other use:
/// before another command (`{{html .a | print}}`), with two operands or none (`{{.a | html .b}}`, `{{html}}`), in parentheses
/// (`{{print (html .a)}}`, also in an operand of an escaper), and in the pipe of a declaration, an assignment, an `if`, a
/// `with`, a `range` or a `template`, whatever its place there (`{{if .a | html}}`). It does not allocate, and time in proportion
/// to the node's pipe.
pub fn escaper_use(kind: &NodeKind) -> EscaperUse
    ensures { result ≡ kind_use kind.now }
{
    match kind {
        NodeKind::Text(_) => EscaperUse::Nothing,
        NodeKind::Action(pipe) => hole_use(pipe),
        NodeKind::Declare(_, pipe) => misused_where(names_escaper(pipe)),
        NodeKind::Assign(_, pipe) => misused_where(names_escaper(pipe)),
        NodeKind::If(_, pipe) => misused_where(names_escaper(pipe)),
        NodeKind::With(_, pipe) => misused_where(names_escaper(pipe)),
        NodeKind::Range(_, _, pipe) => misused_where(names_escaper(pipe)),
        NodeKind::Break => EscaperUse::Nothing,
        NodeKind::Continue => EscaperUse::Nothing,
        NodeKind::Template(_, Some(pipe)) => misused_where(names_escaper(pipe)),
        NodeKind::Template(_, None) => EscaperUse::Nothing,
    }
}

// The use in the pipe of a hole: before the last command no escaper may stand.
fn hole_use(pipe: &Pipe) -> EscaperUse
    ensures { result ≡ use_of pipe.now.commands }
{
    match pipe.commands.as_slice().split_last() {
        Some((last, before)) => {
            if commands_name_escaper(before) {
                return EscaperUse::Misused;
            }
            last_use(last, before.len() > 0)
        }
        None => EscaperUse::Nothing,
    }
}

// The use in the last command, given whether a value is piped to it.
fn last_use(command: &Command, piped: bool) -> EscaperUse
    ensures { result ≡ uses_spec.last_use piped (command_view command.now) }
{
    match command {
        Command::Single(operand) => misused_where(operand_names_escaper(operand)),
        Command::Call(func, operands) => {
            if operands_name_escaper(operands) {
                return EscaperUse::Misused;
            }
            call_use(*func, has_one(operands.as_slice(), piped))
        }
    }
}

// The use of a function as the last command, given whether it has exactly one operand.
fn call_use(func: Func, one: bool) -> EscaperUse
    ensures { result ≡ uses_spec.call_use one func }
{
    match func {
        Func::Html => last_where(one, Predefined::Html),
        Func::Urlquery => last_where(one, Predefined::Urlquery),
        _ => EscaperUse::Nothing,
    }
}

// An escaper with exactly one operand is the last command; with another number of them it is misused.
fn last_where(one: bool, escaper: Predefined) -> EscaperUse
    ensures { result ≡ uses_spec.last_where one escaper }
{
    if one {
        EscaperUse::Last(escaper)
    } else {
        EscaperUse::Misused
    }
}

// Whether there is exactly one operand, written or piped.
fn has_one(operands: &[Operand], piped: bool) -> bool
    ensures { result ≡ uses_spec.has_one_command piped (operands_view operands.now) }
{
    if piped {
        return operands.len() == 0;
    }
    operands.len() == 1
}

// Misused, where an escaper stands in what may have none.
fn misused_where(names: bool) -> EscaperUse
    ensures { result ≡ uses_spec.misused_where names }
{
    if names {
        EscaperUse::Misused
    } else {
        EscaperUse::Nothing
    }
}
