// The execution of templates: the events that a template gives with data, to a sink.
#![tactic(auto)]

mod element;
mod exec;
mod fault;
mod frame;
mod into_list;
mod machine;
mod node;
mod progress;
mod stop;
mod variables;

pub use exec::execute;
pub use into_list::execute_into;
pub use stop::ExecStop;
pub use tpl_eval::{MAX_STEPS, Scope, Value, VariableStack, evaluate};
pub use tpl_events::{HoleSink, HoleStop, Kept, ListSink};
