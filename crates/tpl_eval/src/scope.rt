use crate::value::Value;
use crate::variable_stack::VariableStack;

/// What an evaluation sees: dot, and the variables.
#[derive(Clone, Copy, Debug, Drop)]
pub struct Scope<'d, 'v> {
    pub dot: &'v Value<'d>,
    pub variables: &'v VariableStack<'d>,
}
