// The trees of templates: what their nodes are, the pipes of these, and how a tree is built and read.
#![tactic(auto)]

mod body;
mod boxed;
mod copy;
mod entry;
mod forest;
mod kept_seams;
mod lines;
mod node_kind;
mod pipe;
mod tree;

pub use body::TreeBuilder;
pub use boxed::Boxed;
pub use forest::Forest;
pub use kept_seams::copy_seams;
pub use node_kind::NodeKind;
pub use pipe::{Base, Command, Commands, Operand, Operands, Pipe};
pub use tpl_symbol::Func;
pub use tree::Tree;
