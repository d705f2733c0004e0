// What pipelines give: their operands, the variables in scope, the functions of the language, and the steps that they take.
#![tactic(auto)]

mod call;
mod compare;
mod make;
mod pipe;
mod scope;
mod steps;
mod value;
mod variable_stack;

pub use pipe::{evaluate, is_dot};
pub use scope::Scope;
pub use steps::{MAX_STEPS, counted};
pub use value::Value;
pub use variable_stack::VariableStack;
